// The placed segments of a text one by one: each has its number, and the row on a table that is found from the row before it.

ghost use Rattle.std.specs.Prelude.{◌≤◌};
ghost use Rattle.chart.specs.Forms.Cursor.{Tagged};

use chart::Cursor;
use segments::Text;
use table::Row;

// A placed segment: where it begins, its number, and its row.
#[derive(Clone, Copy, Debug, PartialEq, Eq)]
pub struct Place {
    pub at: usize,
    pub nth: usize,
    pub row: usize,
}

// Those from a cursor on, with how many stand before it, and the row of the last of them.
#[derive(Clone, Copy)]
pub struct Places<'a> {
    text: Text<'a>,
    table: &'a [Row],
    cursor: Cursor,
    nth: usize,
    row: usize,
    ghost tagged: { Tagged text.service text.bytes.now cursor },
    ghost few: { nth ≤ cursor.at },
}

impl<'a> Places<'a> {
    ghost use Rattle.std.specs.Prelude.{◌≡◌};
    ghost use Rattle.message.specs.Placed.{placed_on};
    ghost use Rattle.rule.specs.Left.{places_left};

    #[tactic(auto, using(crate::proofs::Left::left_first, chart::specs::Laws::CursorLaws::tagged_first))]
    pub fn new(text: Text<'a>, table: &'a [Row]) -> Places<'a>
        ensures left { places_left result ≡ placed_on table.now text.entry.service text.entry.bytes.now }
        ensures text { result.text ≡ text.entry }
    {
        Places {
            text,
            table,
            cursor: chart::cursor_at(text, 0),
            nth: 0,
            row: 0,
        }
    }
}

impl<'a> Iterator for Places<'a> {
    ghost use Rattle.std.specs.Iterator.{item_count};
    ghost use Rattle.rule.specs.Left.{places_left, Steps};

    type Item = Place;

    ghost next_gives = { Steps };

    ghost remaining = { item_count places_left };

    #[tactic(auto, using(crate::proofs::Left::left_next, crate::proofs::Left::left_end, crate::proofs::Left::nth_fits, crate::proofs::Left::tagged_on, crate::proofs::Left::few_on))]
    fn next(&mut self) -> Option<Place> {
        let cursor = self.cursor;
        if self.text.bytes.len() <= cursor.at {
            return None;
        }
        self.nth += 1;
        self.row = chart::next_row(self.table, self.row, cursor.tag);
        self.cursor = chart::step(self.text, cursor);
        Some(Place {
            at: cursor.at,
            nth: self.nth,
            row: self.row,
        })
    }
}
