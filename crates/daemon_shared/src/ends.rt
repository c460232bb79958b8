// The sessions that have ended, as they tell it.
use std::alloc::Global;
use std::mem;
use std::sync::{Mutex, Wait};

/// The numbers of sessions that have ended: a hint whose threads can be joined without waiting long.
#[derive(Drop)]
pub struct Finished {
    numbers: Mutex<Vec<u32>>,
}

impl Finished {
    /// None has ended yet.
    pub fn new(alloc: Global) -> Finished {
        Finished {
            numbers: Mutex::new(Vec::new(alloc)),
        }
    }

    /// Tells an end. Where memory is refused it stays untold, and the thread is joined with the last.
    pub fn tell<R: Wait>(&self, rt: &R, number: u32) {
        let mut numbers = self.numbers.lock(rt);
        let _ = numbers.push(number);
    }

    /// Exchanges the list for what was told since it was asked last.
    pub fn take<R: Wait>(&self, rt: &R, list: &mut Vec<u32>) {
        let mut numbers = self.numbers.lock(rt);
        mem::swap(&mut *numbers, list);
    }
}
