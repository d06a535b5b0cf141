// Rows of a fixed length.
ghost use Rattle.std.specs.Prelude.{◌≡◌, ◌^◌, [], replicate, IfOk};

use crate::rows::Rows;
use cb_plain::OutOfMemory;
use std::alloc::Global;
use std::marker::Model;

/// Rows of numbers, each in a piece of its own that is as long as the longest may become.
#[derive(Drop)]
pub(crate) struct FlatRows {
    numbers: Vec<u32>,
    lens: Vec<u32>,
    longest: u32,
}

impl Model for FlatRows {
    ghost use Rattle.std.specs.Prelude.{◌≡◌, ℕ, ◌+◌, ◌*◌, ◌<◌, ◌≤◌, ◌^◌, get_or, length, List};
    ghost use Rattle.cb_blocks.specs.FlatRows.{Flat, flat_rows, IsFlat};

    ghost Value = { Flat };

    ghost view = { λ flat. record { rows = flat_rows flat.numbers.items flat.lens.items flat.longest; longest = flat.longest } };

    ghost invariant = { λ flat. IsFlat flat.numbers.items flat.lens.items flat.longest };
}

impl FlatRows {
    /// So many rows without numbers, each of which may become so long. `OutOfMemory` where their room was not to be had.
    pub(crate) fn make(alloc: Global, parts: u32, longest: u32) -> Result<FlatRows, OutOfMemory>
        ensures { IfOk result (λ flat. flat ≡ record { rows = replicate parts []; longest = longest }) }
    {
        let numbers = vec![in alloc; 0_u32; parts as usize * longest as usize]?;
        let lens = vec![in alloc; 0_u32; parts as usize]?;
        Ok(FlatRows {
            numbers,
            lens,
            longest,
        })
    }
}

impl Rows for FlatRows {
    ghost rows = { λ flat. flat.rows };

    ghost most = { λ flat. 2 ^ 64 };

    ghost longest = { λ flat. flat.longest };

    fn len(&self, part: u32) -> u32 {
        self.lens[part as usize]
    }

    fn get(&self, part: u32, i: u32) -> u32 {
        self.numbers[part as usize * self.longest as usize + i as usize]
    }

    fn push(&mut self, part: u32, number: u32) {
        let len = self.lens[part as usize];
        self.numbers[part as usize * self.longest as usize + len as usize] = number;
        self.lens[part as usize] = len + 1;
    }

    fn pop(&mut self, part: u32) -> u32 {
        let len = self.lens[part as usize] - 1;
        self.lens[part as usize] = len;
        self.numbers[part as usize * self.longest as usize + len as usize]
    }
}
