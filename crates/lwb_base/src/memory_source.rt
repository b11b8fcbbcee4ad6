//! A source in memory.

ghost use Rattle.std.specs.Prelude.{◌≡◌, ◌<◌, ◌-◌, ◌^◌, ◌↔◌, ℕ, All, Contains, IsErr, IfOk, Some, length, min};
ghost use Rattle.std.specs.Io.{ReadsAtMost};
ghost use Rattle.std.specs.Io.KnownBytes.{ReadConsumes};
ghost use Rattle.lwb_base.specs.Causes.{HasCause, fault_count_after};
ghost use Rattle.lwb_base.specs.Outside.{next_call, TakesOnce};

use crate::{Failed, Memory, Source};
use std::alloc::Global;
use std::marker::Model;

/// A source over bytes in memory. It moves at most a set number of bytes a call, and fails at the calls that are set to fail.
#[derive(Drop)]
pub struct MemorySource {
    data: Vec<u8>,
    at: usize,
    most: usize,
    fails: Vec<u64>,
    calls: u64,
    faults: u64,
}

impl Model for MemorySource {
    ghost use Rattle.std.specs.Prelude.{◌≤◌, ◌<◌, length, drop};
    ghost use Rattle.lwb_base.specs.Outside.{SourceState};

    ghost Value = { SourceState };

    ghost view = { λ s. record { left = drop s.at s.data.items; most = s.most; fails = s.fails.items; calls = s.calls; faults = s.faults } };

    ghost invariant = { λ s. (s.at ≤ length s.data.items) × (0 < s.most) };
}

impl MemorySource {
    /// The calls whose numbers are in `fails` fail. They are counted from 1.
    pub fn new(
        alloc: Global,
        bytes: &[u8],
        most: usize,
        fails: &[u64],
    ) -> Result<MemorySource, Memory>
        requires some { 0 < most }
        requires numbers { All (λ n. n < 2 ^ 64 - 1) fails.now }
        ensures { IfOk result (λ s. s ≡ record { left = bytes.now; most = most; fails = fails.now; calls = 0; faults = 0 }) }
    {
        Ok(MemorySource {
            data: Vec::from_slice(alloc, bytes)?,
            at: 0,
            most,
            fails: Vec::from_slice(alloc, fails)?,
            calls: 0,
            faults: 0,
        })
    }
}

impl Source for MemorySource {
    ghost left = { λ s. Some s.left };

    ghost faults = { λ s. s.faults };

    fn take(&mut self, room: &mut [u8]) -> Result<usize, Failed>
        ensures bound { ReadsAtMost result room.new }
        ensures bytes { ReadConsumes (Some self.old.left) (Some self.new.left) result room.new }
        ensures cause { HasCause self.old.faults self.new.faults result }
        ensures counted { self.new.faults ≡ fault_count_after self.old.faults result }
        ensures failed { IsErr result ↔ Contains self.old.fails (next_call self.old.calls) }
        ensures most { IfOk result (λ n. n ≡ min (length room.new) (min self.old.most (length self.old.left))) }
        ensures once { TakesOnce self.old self.new }
    {
        self.calls = self.calls.saturating_add(1);
        if self.fails.contains(&self.calls) {
            self.faults = self.faults.saturating_add(1);
            return Err(Failed);
        }
        let left = &self.data[self.at..];
        let count = left.len().min(self.most).min(room.len());
        room[..count].copy_from_slice(&left[..count]);
        self.at += count;
        Ok(count)
    }
}
