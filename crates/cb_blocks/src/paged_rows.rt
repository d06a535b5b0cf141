// Rows in pages.
ghost use Rattle.std.specs.Prelude.{◌≡◌, ◌+◌, ◌*◌, ◌/◌, ◌≤◌, ◌^◌, [], replicate, IfOk};

use crate::holdings::Holdings;
use crate::rows::Rows;
use cb_plain::OutOfMemory;
use std::alloc::Global;
use std::marker::Model;

/// Rows of numbers in pages of 128, of which each row holds as many as it needs.
#[derive(Drop)]
pub(crate) struct PagedRows<R: Rows> {
    pages: Holdings<R>,
    numbers: Vec<u32>,
    lens: Vec<u32>,
    most: u32,
    longest: u32,
}

impl<R: Rows> Model for PagedRows<R> {
    ghost use Rattle.cb_blocks.specs.PagedRows.{IsRoomy, Roomy};
    ghost use Rattle.cb_blocks.specs.Rows.{all_paged};

    ghost Value = { Roomy };

    ghost view = { λ paged. record { rows = all_paged 128 paged.numbers.items paged.pages.rows paged.lens.items; most = paged.most; longest = paged.longest } };

    ghost invariant = { λ paged. IsRoomy paged.pages paged.numbers.items paged.lens.items paged.most paged.longest };
}

impl<R: Rows> PagedRows<R> {
    /// Rows without numbers that may have so many in all and so many each, whose pages stand in rows without numbers.
    /// `OutOfMemory` where their room was not to be had.
    pub(crate) fn make(
        alloc: Global,
        inner: R,
        parts: u32,
        most: u32,
        longest: u32,
    ) -> Result<PagedRows<R>, OutOfMemory>
        requires empty { R.rows inner ≡ replicate parts [] }
        requires few { parts ≤ 2 ^ 12 }
        requires bound { most ≤ 2 ^ 20 }
        requires pages { most / 128 + parts + 1 ≤ R.most inner }
        requires wide { longest ≤ R.longest inner * 128 }
        ensures { IfOk result (λ paged. paged ≡ record { rows = replicate parts []; most = most; longest = longest }) }
    {
        let count = most / 128 + parts + 1;
        let pages = Holdings::make(alloc, inner, count, parts)?;
        let numbers = vec![in alloc; 0_u32; count as usize * 128]?;
        let lens = vec![in alloc; 0_u32; parts as usize]?;
        Ok(PagedRows {
            pages,
            numbers,
            lens,
            most,
            longest,
        })
    }
}

impl<R: Rows> Rows for PagedRows<R> {
    ghost rows = { λ paged. paged.rows };

    ghost most = { λ paged. paged.most };

    ghost longest = { λ paged. paged.longest };

    fn len(&self, part: u32) -> u32 {
        self.lens[part as usize]
    }

    fn get(&self, part: u32, i: u32) -> u32 {
        let page = self.pages.get(part, i / 128);
        self.numbers[page as usize * 128 + i as usize % 128]
    }

    fn push(&mut self, part: u32, number: u32) {
        let len = self.lens[part as usize];
        self.pages.reach(part, len / 128 + 1);
        let page = self.pages.get(part, len / 128);
        self.numbers[page as usize * 128 + len as usize % 128] = number;
        self.lens[part as usize] = len + 1;
    }

    fn pop(&mut self, part: u32) -> u32 {
        let len = self.lens[part as usize] - 1;
        let page = self.pages.get(part, len / 128);
        let number = self.numbers[page as usize * 128 + len as usize % 128];
        self.pages.keep(part, (len + 127) / 128);
        self.lens[part as usize] = len;
        number
    }
}
