// Chooses the link of one message after the other and adds their numbers up, to be timed from outside: `choosing OUT COUNT`, with a
// configuration on standard input, whose links but the first OUT are open.
#![tactic(auto)]

ghost use Rattle.std.specs.Prelude.{◌≤◌, length};

use plan_store::words_of;
use route_choice::choose;
use route_ways::for_users;
use std::io;
use std::io::Read;
use std::rt::Env;
use text_decimals::decimal::decimal;

fn main(rt: HostRuntime) -> io::Result<()> {
    let count = number(&rt, 2, 1000000000);
    if count == 0 {
        return eprintln!(rt;
            "choosing: say how many of the links are out and how many messages come, with a configuration on standard input: choosing OUT COUNT"
        );
    }
    let mut text = [0u8; 65536];
    let length = read_full(&mut rt.reader(), &mut text);
    let made = plan_configuration::configure::configure(text::part::between(&text, 0, length));
    let plan = words_of(made.plan);
    let sum = choose_all(&plan, number(&rt, 1, 32), count);
    println!(rt; "links, added up\t{sum}")
}

// Reads until the buffer is full, the input ends or can't be read on, and answers how many octets came.
fn read_full(input: &mut impl Read, buffer: &mut [u8]) -> usize
    ensures { result ≤ length buffer.new }
{
    let mut done = 0;
    while done < buffer.len() {
        let got = input.read(&mut buffer[done..]).unwrap_or(0);
        if got == 0 {
            break;
        }
        done += got;
    }
    done
}

// The links of so many messages with every SLS in turn, added up. Each message that is sent is counted on its link, so that the
// compiler can't choose once for all.
fn choose_all(plan: &[u16; 1024], out: u64, count: u64) -> u64 {
    let mut links = all_but(out);
    let marks = [0u32; 512];
    let mut sum = 0u64;
    for rest in (0..count).rev() {
        let link = choose(plan, &links, &marks, for_users(), 0, (rest % 16) as u8);
        if link < 32 {
            links[8 * link as usize + 3] = (rest % 128) as u32;
        }
        sum = sum.wrapping_add(link as u64);
    }
    sum
}

// The states of the links, open but for the first so many.
fn all_but(out: u64) -> [u32; 256] {
    let mut links = [0u32; 256];
    for link in out.min(32)..32 {
        links[8 * link as usize] = 2;
    }
    links
}

// The number that an argument says, 0 where it says none or one above the top.
fn number(rt: &impl Env, argument: usize, top: u64) -> u64 {
    let mut word = [0u8; 4096];
    let length = rt.arg(argument, &mut word).unwrap_or(0);
    decimal(&word[..length], top).unwrap_or(0)
}
