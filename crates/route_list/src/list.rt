// The route list, written into a lent area of at least 4,096 octets.
ghost use Rattle.plan_words.specs.Words.{plan_of};
ghost use Rattle.std.specs.Prelude.{◌≡◌, [], ◌∷◌, ◌++◌, ◌+◌, ◌≤◌, ◌<◌, length, drop};
ghost use Rattle.text.specs.Part.{tab, lf};
ghost use Rattle.route_list.specs.RouteList as RouteList;

use constants::NO_LINK;
use plan_words::read::{count, destination_code, given};
use replies::{Answer, Refusal, refused};
use route_choice::choose;
use route_serving::Need;
use text::put::put;
use text_decimals::decimal::put_decimal;

// The answer counts the octets that are written: none but for reply 0.
pub fn route_list(
    plan: &[u16; 1024],
    links: &[u32; 256],
    marks: &[u32; 512],
    out: &mut [u8],
) -> Answer
    ensures value { result ≡
        RouteList.list_answer (RouteList.list_reply out.old (plan_of plan))
        (length (RouteList.list_written out.old links.now marks.now (plan_of plan))) }
    ensures out_after { out.new ≡
        RouteList.laid out.old 0 (RouteList.list_written out.old links.now marks.now (plan_of plan)) }
{
    if out.len() < 4096 {
        return refused(Refusal::OutOfRange);
    }
    if !given(plan) {
        return refused(Refusal::NotConfigured);
    }
    let start = put_header(out);
    let octets = put_lines(plan, links, marks, out, start);
    Answer {
        reply: 0,
        fsn: 0,
        octets,
        reports: 0,
        delivers: false,
    }
}

// `dest` and the SLS 0 to 15.
fn put_header(out: &mut [u8]) -> usize
    requires { 43 ≤ length out.old }
    ensures value { result ≡ length RouteList.header_line }
    ensures out_after { out.new ≡ RouteList.laid out.old 0 RouteList.header_line }
{
    put(
        out,
        0,
        b"dest\t0\t1\t2\t3\t4\t5\t6\t7\t8\t9\t10\t11\t12\t13\t14\t15\n",
    )
}

// A line a destination; the place past them.
fn put_lines(
    plan: &[u16; 1024],
    links: &[u32; 256],
    marks: &[u32; 512],
    out: &mut [u8],
    at: usize,
) -> usize
    requires { at + 3456 ≤ length out.old }
    ensures value { result ≡ at + length (RouteList.all_lines links.now marks.now (plan_of plan)) }
    ensures out_after { out.new ≡ RouteList.laid out.old at (RouteList.all_lines links.now marks.now (plan_of plan)) }
{
    let mut end = at;
    for destination in 0..(count(plan) as usize).min(64) {
        end = put_line(plan, links, marks, destination, out, end);
    }
    end
}

// A destination's code and the link of each SLS.
fn put_line(
    plan: &[u16; 1024],
    links: &[u32; 256],
    marks: &[u32; 512],
    destination: usize,
    out: &mut [u8],
    at: usize,
) -> usize
    requires destination_bound { destination < 64 }
    requires at_in_bounds { at + 54 ≤ length out.old }
    ensures upper_bound { result ≤ at + 54 }
    ensures value { result ≡ at + length (RouteList.line_of links.now marks.now (plan_of plan) destination) }
    ensures out_after { out.new ≡
        RouteList.laid out.old at (RouteList.line_of links.now marks.now (plan_of plan) destination) }
{
    let code = destination_code(plan, destination);
    let end = put_decimal(out, at, code as u64);
    put_words(plan, links, marks, destination, out, end)
}

// The link of each SLS, and the end of the line.
fn put_words(
    plan: &[u16; 1024],
    links: &[u32; 256],
    marks: &[u32; 512],
    destination: usize,
    out: &mut [u8],
    at: usize,
) -> usize
    requires { at + 49 ≤ length out.old }
    ensures value { result ≡ at + length (RouteList.row_of links.now marks.now (plan_of plan) destination) }
    ensures out_after { out.new ≡
        RouteList.laid out.old at (RouteList.row_of links.now marks.now (plan_of plan) destination) }
{
    let need = Need {
        open: false,
        never: NO_LINK,
    };
    let mut end = at;
    for sls in 0..16 {
        let link = choose(plan, links, marks, need, destination, sls);
        end = put_word(out, end, link);
    }
    put_end(out, end)
}

// A tab and the number of a link, or `-` where there is none.
fn put_word(out: &mut [u8], at: usize, link: u8) -> usize
    requires { at + 3 ≤ length out.old }
    ensures value { result ≡ at + length (tab ∷ RouteList.link_word link) }
    ensures out_after { out.new ≡ RouteList.laid out.old at (tab ∷ RouteList.link_word link) }
{
    let end = put(out, at, b"\t");
    if link < NO_LINK {
        put_decimal(out, end, link as u64)
    } else {
        put(out, end, b"-")
    }
}

// The end of a line.
fn put_end(out: &mut [u8], at: usize) -> usize
    requires { at < length out.old }
    ensures value { result ≡ at + 1 }
    ensures out_after { out.new ≡ RouteList.laid out.old at (lf ∷ []) }
{
    put(out, at, b"\n")
}
