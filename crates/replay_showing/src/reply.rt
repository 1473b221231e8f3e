// The line of a call's reply.
ghost use Rattle.std.specs.Prelude.{◌≡◌, [], ◌∷◌, ◌++◌};
ghost use Rattle.text_pages.specs.Page.{page, puts, ended};
ghost use Rattle.replay_showing.specs.Reply as Reply;

use crate::shows::Shows;
use replies::Answer;
use text::part::between;
use text::put::put;
use text_decimals::decimal::put_decimal;
use text_hex::hex::put_hex;
use text_pages::put_number;
use wire::header::delivered;

// The reply, and what the call shows behind it.
pub fn put_reply(
    out: &mut [u8],
    at: usize,
    number: u64,
    shows: Shows,
    answer: Answer,
    message: &[u8],
    sent: &[u8],
) -> usize
    ensures { page out.new result ≡
        puts (page out.old at)
        (Reply.replied number answer.reply ++ (Reply.behind shows answer message.now sent.now ++ (ended ∷ []))) }
{
    let at = put_replied(out, at, number, answer.reply);
    let at = put_behind(out, at, shows, answer, message, sent);
    put(out, at, b"\n")
}

fn put_replied(out: &mut [u8], at: usize, number: u64, reply: u8) -> usize
    ensures { page out.new result ≡ puts (page out.old at) (Reply.replied number reply) }
{
    let at = put_number(out, at, number, b"\treply\t");
    put_decimal(out, at, reply as u64)
}

fn put_behind(
    out: &mut [u8],
    at: usize,
    shows: Shows,
    answer: Answer,
    message: &[u8],
    sent: &[u8],
) -> usize
    ensures { page out.new result ≡ puts (page out.old at) (Reply.behind shows answer message.now sent.now) }
{
    match shows {
        Shows::Sent => put_sent(
            out,
            at,
            answer.reply,
            answer.fsn,
            between(sent, 0, answer.octets),
        ),
        Shows::Delivered => put_delivered(out, at, answer.delivers, delivered(message)),
        Shows::Listed => at,
        Shows::Nothing => at,
    }
}

fn put_sent(out: &mut [u8], at: usize, reply: u8, fsn: u8, octets: &[u8]) -> usize
    ensures { page out.new result ≡ puts (page out.old at) (Reply.sent reply fsn octets.now) }
{
    if reply != 0 {
        return at;
    }
    let at = put(out, at, b"\t");
    let at = put_number(out, at, fsn as u64, b"\t");
    put_hex(out, at, octets)
}

fn put_delivered(out: &mut [u8], at: usize, delivers: bool, octets: &[u8]) -> usize
    ensures { page out.new result ≡ puts (page out.old at) (Reply.delivered delivers octets.now) }
{
    if !delivers {
        return at;
    }
    let at = put(out, at, b"\t");
    put_hex(out, at, octets)
}
