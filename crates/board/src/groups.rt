// The group table: sixteen entries of three bytes, beside the node.
ghost use Rattle.std.specs.Prelude.{◌≡◌};
ghost use Rattle.board.specs.Groups.{no_groups, applied, in_table, is_entry_of};

use frame::Address;

// What 51h puts into the table: the entry of this index, and its three bytes.
// Stays: by document 01 the table is an array by value beside the node, one entry changed by 51h.
#[derive(Clone, Copy)]
pub struct Put {
    pub index: u8,
    // Stays: three bytes by name, since `a_change_keeps_the_table_or_puts_an_entry` of the promises speaks of three.
    pub low: u8,
    pub middle: u8,
    pub high: u8,
}

// The table of a board that was just set up: every entry is empty.
// Stays: an array of three-byte arrays, by value beside the node, is the form that document 01 names.
pub fn no_groups() -> [[u8; 3]; 16]
    ensures { result ≡ no_groups }
{
    [[0u8; 3]; 16]
}

// The table after a turn: one entry is changed by 51h.
pub fn apply(groups: [[u8; 3]; 16], change: Option<Put>) -> [[u8; 3]; 16]
    ensures { result ≡ applied groups change }
{
    let Some(put) = change else {
        return groups;
    };
    if put.index > 15 {
        return groups;
    }
    let mut table = groups;
    table[usize::from(put.index)] = [put.low, put.middle, put.high];
    table
}

// A group of this board's.
pub fn in_table(groups: [[u8; 3]; 16], source: Address) -> bool
    ensures { result ≡ in_table source groups }
{
    groups.iter().any(|entry| is_entry_of(*entry, source))
}

// 000000h is an empty entry and matches nothing.
fn is_entry_of(entry: [u8; 3], source: Address) -> bool
    ensures { result ≡ is_entry_of entry source }
{
    let [low, middle, high] = entry;
    let group = Address::from_bytes(low, middle, high);
    group.0 != 0 && group == source
}
