//! The sorts and the symbols of the example theory, by their numbers.

use am_term::{SortId, SymId};

pub const TIME: SortId = SortId(0);

pub const POINT: SortId = SortId(1);

pub const SURFACE: SortId = SortId(2);

pub const UTC: SortId = SortId(3);

pub const ET: SortId = SortId(4);

pub const KM: SortId = SortId(5);

pub const ANGLE: SortId = SortId(6);

pub const BODY: SortId = SortId(7);

pub const FRAME: SortId = SortId(8);

pub const ABCORR: SortId = SortId(9);

pub const VECTOR: SortId = SortId(10);

pub const MATRIX: SortId = SortId(11);

pub const NONE: SymId = SymId(0);

pub const J2000: SymId = SymId(1);

pub const SUN: SymId = SymId(2);

pub const UTC2ET: SymId = SymId(3);

pub const SPKEZP_POS: SymId = SymId(4);

pub const SPKEZP_LT: SymId = SymId(5);

pub const PXFORM: SymId = SymId(6);

pub const MXV: SymId = SymId(7);

pub const VSUB: SymId = SymId(8);

pub const NEARPT_POINT: SymId = SymId(9);

pub const NEARPT_ALT: SymId = SymId(10);

pub const RECLAT_RADIUS: SymId = SymId(11);

pub const RECLAT_LON: SymId = SymId(12);

pub const RECLAT_LAT: SymId = SymId(13);

pub const VNORM: SymId = SymId(14);

pub const TIME_OF: SymId = SymId(15);

pub const UTC_TIME: SymId = SymId(16);

pub const BODY_PLACE: SymId = SymId(17);

pub const ELLIPSOID: SymId = SymId(18);

pub const NEAREST: SymId = SymId(19);

pub const COORDS: SymId = SymId(20);

pub const LONGITUDE: SymId = SymId(21);

pub const LATITUDE: SymId = SymId(22);
