//! A gate that hands turns round: one for each start, and one for each step that a hart makes.
use crate::work::Turning;
use hart_runner::Gate;
use std::sync::Wait;
use std::sync::atomic::{AtomicBool, AtomicU64, Ordering};
use std::time::Duration;

// How often a hart looks at a turn that doesn't change before it lets all go.
const PATIENCE: u32 = 30;

// The milliseconds between two of these looks.
const LOOK: u64 = 1000;

/// The turns of harts in their order, and how far they are.
#[derive(Drop)]
pub struct Turns {
    harts: Vec<u8>,
    // Twice the place of the turn that is handed out; one more if its hart has taken it.
    place: AtomicU64,
    // Whether no hart waits for a turn any more.
    are_let_go: AtomicBool,
}

impl Turns {
    pub fn new(harts: Vec<u8>) -> Turns {
        Turns {
            harts,
            place: AtomicU64::new(0),
            are_let_go: AtomicBool::new(false),
        }
    }

    /// Whether each turn was taken and given up by its hart, and none was let go.
    pub fn are_over(&self) -> bool {
        let place = self.place.load(Ordering::SeqCst);
        place == (self.harts.len() as u64).saturating_mul(2)
            && !self.are_let_go.load(Ordering::SeqCst)
    }

    // Whether the turn at this place is the hart's.
    fn is_of(&self, place: u64, hart: u8) -> bool {
        self.harts.get((place / 2) as usize).copied() == Some(hart)
    }

    fn move_to(&self, place: u64) {
        self.place.store(place, Ordering::SeqCst);
        self.place.wake_all();
    }

    fn let_all_go(&self) {
        self.are_let_go.store(true, Ordering::SeqCst);
        self.place.wake_all();
    }

    // Gives up the hart's turn, if it has one.
    fn pass(&self, hart: u8) {
        let place = self.place.load(Ordering::SeqCst);
        if place % 2 == 1 && self.is_of(place, hart) {
            self.move_to(place.saturating_add(1));
        }
    }

    // Hands the hart's turn out once more, if it has one.
    fn hand_again(&self, hart: u8) {
        let place = self.place.load(Ordering::SeqCst);
        if place % 2 == 1 && self.is_of(place, hart) {
            self.move_to(place.saturating_sub(1));
        }
    }

    // Gives up the hart's turn, and takes its next one when it is handed out.
    fn take<R: Wait>(&self, rt: &R, hart: u8) {
        self.pass(hart);
        let mut seen = u64::MAX;
        let mut looks: u32 = 0;
        for _ in rt.forever() {
            let place = self.place.load(Ordering::SeqCst);
            if place % 2 == 0 && self.is_of(place, hart) {
                self.place.store(place.saturating_add(1), Ordering::SeqCst);
                return;
            }
            if self.are_let_go.load(Ordering::SeqCst) {
                return;
            }
            looks = if place == seen {
                looks.saturating_add(1)
            } else {
                0
            };
            if looks == PATIENCE {
                self.let_all_go();
                return;
            }
            seen = place;
            let low = (place % (1 << 32)) as u32;
            self.place
                .park_timeout(rt, low, Duration::from_millis(LOOK));
        }
    }
}

/// The gate of a kernel whose harts take turns.
#[derive(Drop)]
pub struct Handing<'a> {
    pub turns: &'a Turns,
}

impl Gate for Handing<'_> {
    fn at(&self, rt: &impl Wait, hart: u8, _number: u64) {
        self.turns.take(rt, hart);
    }
}

impl Turning for Handing<'_> {
    fn start(&self, rt: &impl Wait, hart: u8) {
        self.turns.take(rt, hart);
    }

    fn again(&self, hart: u8) {
        self.turns.hand_again(hart);
    }

    fn end(&self, hart: u8) {
        self.turns.pass(hart);
    }
}
