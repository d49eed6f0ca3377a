// Changes of one board, by its number. Each asks that there is such a board: a number that carried the fact would
// have to carry the core as well, and a view by `&mut` would have each contract say what it hands back.
ghost use Rattle.std.specs.Prelude.{◌≡◌, ◌+◌, ◌<◌, ◌≤◌, slice_set};
ghost use Rattle.theory.specs.declared.memory.Cell.TheVariants.{Value};
ghost use Rattle.theory.specs.Lists.{tail, wiped};
ghost use Rattle.theory.specs.Make.{with_record};
ghost use Rattle.theory.specs.State.{with_cells, with_entries, with_free, with_slots, with_top};
ghost use Rattle.boards.specs.Models.{model, Changed};

use super::Core;
use crate::flat::{store, wipe};
use theory::memory::{Cell, Entry, Ref};
use wire::Wire;

impl<W: Wire> Core<'_, W> {
    // So many cells from a place on become the value 0.
    fn wipe(&mut self, b: u32, from: u32, count: u32)
        requires board { b < self.old.settings.boards }
        requires places { from + count ≤ self.old.settings.cells }
        ensures { Changed W.means self.old self.new b (λ x. with_cells (wiped x.cells from count (Value 0)) x) }
    {
        let each = self.settings.cells as usize;
        let start = b as usize * each;
        let part = &mut self.cells[start..start + each];
        wipe(part, from as usize, count as usize, Cell::Value(0));
    }

    fn put_entry(&mut self, b: u32, entry: u16, v: Entry)
        requires { b < self.old.settings.boards }
        ensures { Changed W.means self.old self.new b (λ x. with_entries (slice_set x.entries entry v) x) }
    {
        let each = self.settings.entries as usize;
        let start = b as usize * each;
        store(&mut self.entries[start..start + each], entry as usize, v);
    }

    pub fn put_slot(&mut self, b: u32, slot: u32, v: Cell)
        requires board { b < self.old.settings.boards }
        requires slot { slot < 8 }
        ensures { Changed W.means self.old self.new b (λ x. with_slots (slice_set x.slots slot v) x) }
    {
        self.registers[b as usize].slots[slot as usize] = v;
    }

    fn put_top(&mut self, b: u32, v: u32)
        requires { b < self.old.settings.boards }
        ensures { Changed W.means self.old self.new b (with_top v) }
    {
        self.registers[b as usize].top = v;
    }

    // The first free entry leaves its queue.
    fn take_free(&mut self, b: u32)
        requires { b < self.old.settings.boards }
        ensures { Changed W.means self.old self.new b (λ x. with_free (tail x.free) x) }
    {
        let _ = self.free.pop(b as usize);
    }

    // A record of so many cells from the top up, described by an entry, which the slot refers to. The first
    // free entry leaves its queue: the caller names that one.
    pub fn place_record(&mut self, b: u32, slot: u32, entry: u16, size: u32)
        requires board { b < self.old.settings.boards }
        requires slot { slot < 8 }
        requires room { ((model W.means self.old).boards b).top + size ≤ self.old.settings.cells }
        ensures { Changed W.means self.old self.new b (with_record b slot size entry) }
    {
        let place = self.registers[b as usize].top;
        let record = Entry {
            size,
            place,
            mark: None,
        };
        self.take_free(b);
        self.wipe(b, place, size);
        self.put_entry(b, entry, record);
        self.put_top(b, place + size);
        let board = b as u16;
        self.put_slot(b, slot, Cell::Ref(Ref { board, entry }));
    }
}
