use am_term::NoMemory;
use std::alloc::{AllocError, Global};

/// Why a case has no answer: want of memory, or a fault in words.
#[derive(Drop)]
pub enum CaseFault {
    Memory,
    Said(String),
}

impl CaseFault {
    /// The fault of these words.
    pub fn said(alloc: Global, words: &str) -> CaseFault {
        match String::from_str(alloc, words) {
            Ok(words) => CaseFault::Said(words),
            Err(_) => CaseFault::Memory,
        }
    }
}

impl From<NoMemory> for CaseFault {
    fn from(_fault: NoMemory) -> CaseFault {
        CaseFault::Memory
    }
}

impl From<AllocError> for CaseFault {
    fn from(_fault: AllocError) -> CaseFault {
        CaseFault::Memory
    }
}
