//! A sink in memory.

ghost use Rattle.std.specs.Prelude.{◌≡◌, ◌<◌, ◌≤◌, ◌-◌, ◌^◌, ◌↔◌, ◌⊎◌, ℕ, [], All, Contains, IsErr, IfOk, Some, length, min};
ghost use Rattle.std.specs.Io.{WritesAtMost};
ghost use Rattle.std.specs.Io.KnownBytes.{WriteAppends};
ghost use Rattle.lwb_base.specs.Causes.{HasCause, fault_count_after};
ghost use Rattle.lwb_base.specs.Outside.{next_call, PutsOnce};

use crate::{Failed, Memory, Sink};
use std::alloc::Global;
use std::marker::Model;

/// A sink that keeps its bytes in memory. It takes at most a set number of bytes a call. It fails at the calls that are set to
/// fail, and at a piece that is not empty once its room is full.
#[derive(Drop)]
pub struct MemorySink {
    held: Vec<u8>,
    most: usize,
    room: usize,
    fails: Vec<u64>,
    calls: u64,
    faults: u64,
}

impl Model for MemorySink {
    ghost use Rattle.std.specs.Prelude.{◌≤◌, ◌<◌, length, vec_capacity};
    ghost use Rattle.lwb_base.specs.Outside.{SinkState};

    ghost Value = { SinkState };

    ghost view = { λ s. record { held = s.held.items; most = s.most; room = s.room; fails = s.fails.items; calls = s.calls; faults = s.faults } };

    ghost invariant = { λ s. (length s.held.items ≤ s.room) × (s.room ≤ vec_capacity s.held) × (0 < s.most) };
}

impl MemorySink {
    /// The calls whose numbers are in `fails` fail. They are counted from 1.
    pub fn new(alloc: Global, most: usize, room: usize, fails: &[u64]) -> Result<MemorySink, Memory>
        requires some { 0 < most }
        requires numbers { All (λ n. n < 2 ^ 64 - 1) fails.now }
        ensures { IfOk result (λ s. s ≡ record { held = []; most = most; room = room; fails = fails.now; calls = 0; faults = 0 }) }
    {
        Ok(MemorySink {
            held: Vec::with_capacity(alloc, room)?,
            most,
            room,
            fails: Vec::from_slice(alloc, fails)?,
            calls: 0,
            faults: 0,
        })
    }

    /// What it was given so far.
    pub fn bytes(&self) -> &[u8]
        ensures { result.now ≡ self.now.held }
    {
        &self.held
    }
}

impl Sink for MemorySink {
    ghost held = { λ s. Some s.held };

    ghost faults = { λ s. s.faults };

    fn put(&mut self, piece: &[u8]) -> Result<usize, Failed>
        ensures bound { WritesAtMost result piece.now }
        ensures some { 0 < length piece.now → IfOk result (λ n. 0 < n) }
        ensures bytes { WriteAppends (Some self.old.held) (Some self.new.held) result piece.now }
        ensures cause { HasCause self.old.faults self.new.faults result }
        ensures counted { self.new.faults ≡ fault_count_after self.old.faults result }
        ensures failed { IsErr result
            ↔ (Contains self.old.fails (next_call self.old.calls) ⊎ ((0 < length piece.now) × (self.old.room ≤ length self.old.held))) }
        ensures most { IfOk result (λ n. n ≡ min (length piece.now) (min self.old.most (self.old.room - length self.old.held))) }
        ensures once { PutsOnce self.old self.new }
    {
        self.calls = self.calls.saturating_add(1);
        let refused = self.fails.contains(&self.calls);
        if refused || (!piece.is_empty() && self.held.len() >= self.room) {
            self.faults = self.faults.saturating_add(1);
            return Err(Failed);
        }
        let count = piece.len().min(self.most).min(self.room - self.held.len());
        self.held.extend_from_slice(&piece[..count]).unwrap();
        Ok(count)
    }
}
