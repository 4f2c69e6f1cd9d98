// The lists that are lent, and what is written into them by hand.
use tables::{NODE_WIDTH, RECORD_WIDTH};

// How much of each list is lent, as the script says.
#[derive(Clone, Copy, Default)]
pub struct Lent {
    pub nodes: u32,
    pub records: u32,
    pub pending: u32,
    pub found: u32,
    pub keys: u32,
}

impl From<[u32; 5]> for Lent {
    fn from([nodes, records, pending, found, keys]: [u32; 5]) -> Lent {
        Lent {
            nodes,
            records,
            pending,
            found,
            keys,
        }
    }
}

// All that a call is lent.
#[derive(Drop)]
pub struct Lists<'a> {
    pub tables: lending::Lent<'a>,
    pub keys: &'a mut [i32],
}

// What a line writes into the lists: a word everywhere, or one word at its place in its list.
#[derive(Clone, Copy)]
pub enum Put {
    Everywhere(u32),
    Node(usize, u32),
    Record(usize, u32),
    Pending(usize, u32),
}

fn place_in(row: u32, width: u32, field: u32) -> usize {
    row as usize * width as usize + field as usize
}

impl Put {
    pub fn of_letter(letter: u8, [a, b, c, _, _]: [u32; 5]) -> Option<Put> {
        match letter {
            b'w' => Some(Put::Everywhere(a)),
            b'n' => Some(Put::Node(place_in(a, NODE_WIDTH, b), c)),
            b'r' => Some(Put::Record(place_in(a, RECORD_WIDTH, b), c)),
            b'p' => Some(Put::Pending(a as usize, b)),
            _ => None,
        }
    }
}

impl Lists<'_> {
    fn wash(&mut self, word: u32) {
        self.tables.nodes.fill(word);
        self.tables.records.fill(word);
        self.tables.pending.fill(word);
        self.tables.found.fill(word.cast_signed());
        self.keys.fill(word.cast_signed());
    }

    // Past the end nothing is written.
    pub fn put(&mut self, put: Put) {
        match put {
            Put::Everywhere(word) => self.wash(word),
            Put::Node(place, word) => fields::put(self.tables.nodes, place, word),
            Put::Record(place, word) => fields::put(self.tables.records, place, word),
            Put::Pending(place, word) => fields::put(self.tables.pending, place, word),
        }
    }
}
