// The words of a reply but 0, of a drop's reason and of a fault. A number that has no words has an empty text.
use text::put::put;

// Replies from 1 on.
pub fn words_of_reply(reply: u64) -> &'static [u8] {
    match reply {
        1 => b"an argument is out of range or a lent area too short",
        2 => b"the link, set or destination isn't configured",
        3 => b"the message is malformed",
        4 => b"the network indicator isn't ours",
        5 => b"the event doesn't fit the state of the link or timer",
        6 => b"the number isn't the next, or not in range",
        7 => b"192 user messages are held",
        8 => b"no management place is free",
        9 => b"the destination isn't configured or inaccessible",
        10 => b"no arrival number is left",
        11 => b"the management message names nothing or fits no state",
        _ => b"",
    }
}

// Reasons from 1 on.
pub fn words_of_reason(reason: u64) -> &'static [u8] {
    match reason {
        1 => b"no route",
        2 => b"sent, and what the far end took isn't known",
        _ => b"",
    }
}

// Faults from 20 on; there are none from 26 to 29.
pub fn words_of_fault(fault: u64) -> &'static [u8] {
    match fault {
        20 => b"wrong word, field count or no line feed",
        21 => b"not a plain decimal, or out of range",
        22 => b"a repeat, or our own code",
        23 => b"names something not given above",
        24 => b"a table is full, or the text too long",
        25 => b"the first line isn't the node's, or there is no text",
        30 => b"the line can't be read",
        _ => b"",
    }
}

// The words of a reason, put into an area from a place on.
pub fn put_reason(out: &mut [u8], at: usize, reason: u64) -> usize {
    put(out, at, words_of_reason(reason))
}
