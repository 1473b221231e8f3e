// Messages received and handed over, as C calls it.
ghost use Rattle.std.specs.Prelude.{◌≡◌, [], length};
ghost use Rattle.plan_words.specs.Words.{plan_of};
ghost use Rattle.replies.specs.Areas.{Leaves, before, after, before_unreported, after_unreported};
ghost use Rattle.receiving.specs.Receive as Receive;
ghost use Rattle.passing_offering.specs.Host as Host;

use passing_offering::send_host;
use receiving::receive;
use replies::Answer;

// A message came in on a link.
#[unsafe(no_mangle)]
pub extern "C" fn transfer_point_receive_lent(
    plan: &[u16; 1024],
    links: &mut [u32; 256],
    marks: &mut [u32; 512],
    spans: &mut [u16; 70],
    rings: &mut [u8; 8960],
    rows: &mut [u64; 2048],
    octets: &mut [u8; 52416],
    arrivals: &mut [u64; 1],
    link: u8,
    fsn: u8,
    message: &[u8],
    reports: &mut [u64],
) -> Answer
    ensures leaves { Leaves (Receive.received (plan_of plan) link fsn message.now (before links.old marks.old spans.old rings.old rows.old arrivals.old reports.old))
        result (after links.new marks.new spans.new rings.new rows.new arrivals.new reports.new) }
    ensures octets_after { octets.new ≡
        Receive.octets_received (plan_of plan) link fsn message.now (before links.old marks.old spans.old rings.old rows.old arrivals.old reports.old)
        octets.old }
{
    receive(
        plan, links, marks, spans, rings, rows, octets, arrivals, link, fsn, message, reports,
    )
}

// The host hands a message of its own over.
#[unsafe(no_mangle)]
pub extern "C" fn transfer_point_send_host_lent(
    plan: &[u16; 1024],
    links: &[u32; 256],
    marks: &[u32; 512],
    spans: &mut [u16; 70],
    rings: &mut [u8; 8960],
    rows: &mut [u64; 2048],
    octets: &mut [u8; 52416],
    arrivals: &mut [u64; 1],
    message: &[u8],
) -> Answer
    ensures leaves { Leaves (Host.sent (plan_of plan) message.now (before_unreported links.now marks.now spans.old rings.old rows.old arrivals.old)) result
        (after_unreported links.now marks.now spans.new rings.new rows.new arrivals.new) }
    ensures octets_after { octets.new ≡
        Host.octets_sent (plan_of plan) message.now (before_unreported links.now marks.now spans.old rings.old rows.old arrivals.old) octets.old }
{
    send_host(
        plan, links, marks, spans, rings, rows, octets, arrivals, message,
    )
}
