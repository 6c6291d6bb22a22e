//! Guessing at which place among the served objects a name's object is.

/// The places of the objects under system, by their last number.
const SYSTEM: [usize; 8] = [0, 0, 1, 2, 3, 4, 5, 6];

/// The places of the columns under ifEntry, by their last number.
const INTERFACES: [usize; 21] = [
    0, 8, 9, 10, 11, 12, 13, 14, 15, 16, 17, 18, 0, 19, 20, 21, 22, 23, 0, 24, 25,
];

/// The places of the columns under ifXEntry, by their last number.
const EXTENSIONS: [usize; 20] = [
    0, 31, 0, 0, 0, 0, 32, 33, 0, 0, 34, 35, 0, 0, 0, 36, 0, 0, 37, 38,
];

/// The place of ifNumber.
const COUNT_OF_INTERFACES: usize = 7;

/// The place of the first object under snmp.
const FIRST_OF_SNMP: usize = 26;

/// The place of the first object under snmpEngine.
const FIRST_OF_ENGINE: usize = 39;

/// The place among the served objects that the object of a name has, if the name is under one.
/// Callers look whether it is under that one, so only their speed depends on the numbers here.
pub(crate) fn guess_place(name: &[u32]) -> usize {
    match number_at(name, 6) {
        1 => place_in(&SYSTEM, number_at(name, 7)),
        2 if number_at(name, 7) == 1 => COUNT_OF_INTERFACES,
        2 => place_in(&INTERFACES, number_at(name, 9)),
        31 => place_in(&EXTENSIONS, number_at(name, 10)),
        10 => FIRST_OF_ENGINE.saturating_add(number_at(name, 9).saturating_sub(1)),
        _ => FIRST_OF_SNMP,
    }
}

/// The number at a place of a name, or 0.
fn number_at(name: &[u32], place: usize) -> usize {
    match name.get(place) {
        Some(number) => *number as usize,
        None => 0,
    }
}

/// The place of an object by its last number, or 0.
fn place_in(places: &[usize], number: usize) -> usize {
    match places.get(number) {
        Some(place) => *place,
        None => 0,
    }
}
