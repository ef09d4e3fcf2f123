// Lists of numbers, where a place that isn't there holds 0.

// The number at a place, and 0 past the end.
pub(crate) fn number_at(numbers: &[f64], at: usize) -> f64 {
    match numbers.get(at) {
        Some(number) => *number,
        None => 0.0,
    }
}

pub(crate) fn put_number(numbers: &mut [f64], at: usize, number: f64) {
    if let Some(place) = numbers.get_mut(at) {
        *place = number;
    }
}

pub(crate) fn put_flag(flags: &mut [bool], at: usize, flag: bool) {
    if let Some(place) = flags.get_mut(at) {
        *place = flag;
    }
}
