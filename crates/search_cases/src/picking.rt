use crate::choosers::Last;
use am_agenda::{ByAge, ByWeight, Chooser, Mixed, WaitRow};
use am_term::NoMemory;
use std::alloc::Global;

/// The numbers of the rows that a chooser picks, asked so many times for one list: `CHOOSER TIMES NUMBER:WEIGHT ..`.
/// Fails on want of memory.
pub fn pick_answer(alloc: Global, words: &str) -> Result<String, NoMemory> {
    let Some((word, behind)) = words.split_once(' ') else {
        return Ok(String::from_str(alloc, "no chooser")?);
    };
    let Some((times, list)) = behind.split_once(' ') else {
        return Ok(String::from_str(alloc, "no rows")?);
    };
    let times = match times.parse::<u32>() {
        Ok(times) => times,
        Err(_) => 0,
    };
    let rows = rows_of(alloc, list)?;
    match word {
        "age" => picks(alloc, ByAge::new(), times, rows.as_slice()),
        "mixed" => picks(alloc, Mixed::new(), times, rows.as_slice()),
        "last" => picks(alloc, Last {}, times, rows.as_slice()),
        _ => picks(alloc, ByWeight::new(), times, rows.as_slice()),
    }
}

fn picks<C: Chooser>(
    alloc: Global,
    chooser: C,
    times: u32,
    rows: &[WaitRow],
) -> Result<String, NoMemory> {
    let mut chooser = chooser;
    let mut answer = String::from_str(alloc, "picked")?;
    for _ in 0..times {
        if rows.is_empty() {
            return Ok(answer);
        }
        let place = chooser.choose(rows);
        let word = rows[place].number.to_string(alloc)?;
        answer.push(' ')?;
        answer.push_str(word.as_str())?;
    }
    Ok(answer)
}

// The rows of a list `NUMBER:WEIGHT ..`; what isn't so spelled is passed over.
fn rows_of(alloc: Global, list: &str) -> Result<Vec<WaitRow>, NoMemory> {
    let mut rows = Vec::new(alloc);
    for word in list.split(' ') {
        if let Some(row) = row_of(word) {
            rows.push(row)?;
        }
    }
    Ok(rows)
}

fn row_of(word: &str) -> Option<WaitRow> {
    let (number, weight) = word.split_once(':')?;
    let Ok(number) = number.parse::<u32>() else {
        return None;
    };
    let Ok(weight) = weight.parse::<u32>() else {
        return None;
    };
    Some(WaitRow { number, weight })
}
