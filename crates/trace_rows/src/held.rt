// What is kept of a held message: 32 words for each of 256 rows. The last sixteen are its last eight moves.
ghost use Rattle.std.specs.Prelude.{◌<◌, ◌≡◌};
ghost use Rattle.area_rows.specs.Rows.{word_at, with_word};
ghost use Rattle.trace_rows.specs.Rows.{
  fsn_of,
  message_at,
  move_at,
  name_of,
  place_of,
  sent_at,
  with_message,
  with_move,
  word_of,
  word_of_fsn,
  word_of_name,
  word_of_place,
};

pub use trace_circuits::message::{Message, Place, Sent};

pub fn load(rows: &[u64; 8192], row: u8) -> Message
    ensures { result ≡ message_at rows.now row }
{
    Message {
        arrival: word_at(rows, row, 0),
        line: word_at(rows, row, 1),
        origin: word_at(rows, row, 2),
        destination: word_at(rows, row, 3),
        sls: word_at(rows, row, 4),
        name: name_of(word_at(rows, row, 5)),
        si: word_at(rows, row, 6),
        length: word_at(rows, row, 7),
        octets: word_at(rows, row, 8).to_le_bytes(),
        place: place_of(word_at(rows, row, 9)),
        sent: sent_at(rows, row),
        stood: 0 < word_at(rows, row, 13),
        moves: word_at(rows, row, 14),
        twice: 0 < word_at(rows, row, 15),
    }
}

// How its message left.
fn sent_at(rows: &[u64; 8192], row: u8) -> Option<Sent>
    ensures { result ≡ sent_at rows.now row }
{
    if word_at(rows, row, 10) == 0 {
        return None;
    }
    Some(Sent {
        fsn: word_at(rows, row, 11),
        line: word_at(rows, row, 12),
    })
}

// One word of a row.
fn word_at(rows: &[u64; 8192], row: u8, place: usize) -> u64
    requires { place < 32 }
    ensures { result ≡ word_at 256 32 rows.now row place }
{
    rows[32 * (row as usize) + place]
}

pub fn store(rows: &mut [u64; 8192], row: u8, message: Message)
    ensures { rows.new ≡ with_message rows.old row message }
{
    let sent = message.sent.unwrap_or(Sent { fsn: 0, line: 0 });
    put_word(rows, row, 0, message.arrival);
    put_word(rows, row, 1, message.line);
    put_word(rows, row, 2, message.origin);
    put_word(rows, row, 3, message.destination);
    put_word(rows, row, 4, message.sls);
    put_word(rows, row, 5, word_of_name(message.name));
    put_word(rows, row, 6, message.si);
    put_word(rows, row, 7, message.length);
    put_word(rows, row, 8, u64::from_le_bytes(message.octets));
    put_word(rows, row, 9, word_of_place(message.place));
    put_word(rows, row, 10, word(message.sent.is_some()));
    put_word(rows, row, 11, sent.fsn);
    put_word(rows, row, 12, sent.line);
    put_word(rows, row, 13, word(message.stood));
    put_word(rows, row, 14, message.moves);
    put_word(rows, row, 15, word(message.twice));
}

// One word of a row set.
fn put_word(rows: &mut [u64; 8192], row: u8, place: usize, value: u64)
    requires { place < 32 }
    ensures { rows.new ≡ with_word 256 32 rows.old row place value }
{
    rows[32 * (row as usize) + place] = value;
}

fn word(flag: bool) -> u64
    ensures { result ≡ word_of flag }
{
    if flag { 1 } else { 0 }
}

// The word of a name has its three letters, the first the lowest; 0 stands for none.
fn name_of(word: u64) -> Option<[u8; 3]>
    ensures { result ≡ name_of word }
{
    if word == 0 {
        return None;
    }
    Some([
        (word % 256) as u8,
        (word / 256 % 256) as u8,
        (word / 65536 % 256) as u8,
    ])
}

fn word_of_name(name: Option<[u8; 3]>) -> u64
    ensures { result ≡ word_of_name name }
{
    match name {
        Some(letters) => {
            (letters[0] as u64) + 256 * ((letters[1] as u64) + 256 * (letters[2] as u64))
        }
        None => 0,
    }
}

// The word of a place is the link's number, and 32 where the message is held apart.
fn place_of(word: u64) -> Place
    ensures { result ≡ place_of word }
{
    if word == 32 {
        Place::Apart
    } else {
        Place::Link(word)
    }
}

fn word_of_place(place: Place) -> u64
    ensures { result ≡ word_of_place place }
{
    match place {
        Place::Link(link) => link,
        Place::Apart => 32,
    }
}

// A move: the links that it went from and to, and the record's line; and where the message may arrive twice by it the number that it had left with.
#[derive(Clone, Copy)]
pub struct Move {
    pub from: Place,
    pub to: Place,
    pub line: u64,
    pub resent: Option<u64>,
}

// The word of the number that a message had left with is one more; 0 stands for none.
fn fsn_of(word: u64) -> Option<u64>
    ensures { result ≡ fsn_of word }
{
    if word == 0 { None } else { Some(word - 1) }
}

fn word_of_fsn(fsn: Option<u64>) -> u64
    ensures { result ≡ word_of_fsn fsn }
{
    match fsn {
        Some(fsn) => fsn % 255 + 1,
        None => 0,
    }
}

// The move of a number, counted from 0, of which the last eight are kept.
pub fn load_move(rows: &[u64; 8192], row: u8, number: u64) -> Move
    ensures { result ≡ move_at rows.now row number }
{
    let at = 32 * (row as usize) + 2 * ((number % 8) as usize);
    Move {
        from: place_of(rows[at + 16] / 64 % 64),
        to: place_of(rows[at + 16] % 64),
        line: rows[at + 17],
        resent: fsn_of(rows[at + 16] / 4096),
    }
}

pub fn store_move(rows: &mut [u64; 8192], row: u8, number: u64, made: Move)
    ensures { rows.new ≡ with_move rows.old row number made }
{
    let at = 32 * (row as usize) + 2 * ((number % 8) as usize);
    let links = word_of_place(made.from) % 64 * 64 + word_of_place(made.to) % 64;
    rows[at + 16] = word_of_fsn(made.resent) * 4096 + links;
    rows[at + 17] = made.line;
}
