ghost use Rattle.std.specs.Prelude.{◌≡◌, ℕ, ◌+◌, ◌<◌, ◌≤◌, ◌^◌, IfOk, length, slice_index};
ghost use Rattle.drawing.specs.Levels.{LevelsFor};
ghost use Rattle.drawing.specs.Shown.{view};

use crate::areas::Area;
use crate::picture::Picture;
use std::alloc::{AllocError, Global};

// A level for each pass, and how many levels there are.
#[derive(Drop)]
pub(crate) struct Levels {
    pub(crate) of_passes: Vec<usize>,
    pub(crate) count: usize,
}

impl Picture<'_> {
    // Levels on which no bar of a pass that isn't followed hides another.
    pub(crate) fn levels(&self, alloc: Global) -> Result<Levels, AllocError>
        ensures levels { IfOk result (λ levels. LevelsFor (view self.now) levels.of_passes.items levels.count) }
        ensures few { IfOk result (λ levels. levels.count ≤ length self.now.passes.now + 1) }
    {
        let mut of_passes = Vec::new(alloc);
        // For each level where the last bar on it ends.
        let mut ends = vec![in alloc; 0]?;
        // Kept: a pass and what the plan says of it are found by its place.
        for place in 0..self.passes.len() {
            let level = if self.plan[place] == 0 {
                take_level(&mut ends, self.bar_area(0, self.passes[place]))?
            } else {
                0
            };
            of_passes.push(level)?;
        }
        Ok(Levels {
            of_passes,
            count: ends.len(),
        })
    }
}

// Puts a bar on the first level that is free for it, or on a new one.
fn take_level(ends: &mut Vec<u64>, bar: Area) -> Result<usize, AllocError>
    requires { bar.x + bar.width < 2 ^ 64 }
    ensures taken { IfOk result (λ k. (k < length ends.new.items) × (slice_index ends.new.items k ≡ bar.x + bar.width)) }
    ensures free { IfOk result (λ k. k < length ends.old.items → slice_index ends.old.items k ≤ bar.x) }
    ensures others { IfOk result (λ k. (m : ℕ) → m < length ends.old.items → (m ≡ k → ⊥) → slice_index ends.new.items m ≡ slice_index ends.old.items m) }
    ensures more { IfOk result (λ _. (length ends.old.items ≤ length ends.new.items) × (length ends.new.items ≤ length ends.old.items + 1)) }
{
    match ends.iter().position(|end| *end <= bar.x) {
        Some(level) => {
            ends[level] = bar.x + bar.width;
            Ok(level)
        }
        None => {
            let level = ends.len();
            ends.push(bar.x + bar.width)?;
            Ok(level)
        }
    }
}
