// A hop of the list: a byte for each value, the number of a row of the tables at the list's head.
use crate::state::after;
use low_first::{byte_at, double_at, single_at};

// 256 rows of 8 bytes, then 256 of 4.
const POWERS: usize = 2048;

// The rows that the bytes at `at` name.
fn fill<T: Copy, F: Fn(u8) -> T>(list: &[u8], at: usize, values: &mut [T], row: F)
    requires { F.IsAlwaysCallable row }
{
    for (k, x) in values.iter_mut().enumerate() {
        *x = row(byte_at(list, at, k));
    }
}

// As many rows of dB as there are values, then the rows of power: two slices, as each call that takes a hop is lent them.
pub fn fill_hop(list: &[u8], at: usize, db: &mut [f64], power: &mut [f32]) {
    let powers = after(at, db.len());
    fill(list, at, db, |row| double_at(list, usize::from(row) * 8));
    fill(list, powers, power, |row| {
        single_at(list, POWERS + usize::from(row) * 4)
    });
}
