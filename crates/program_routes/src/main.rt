// Reads the configurations that its arguments name, and writes for each the route list with all its links open, or its first
// faulty line and that line's fault. With several configurations a line `file NAME` stands before each.
#![tactic(auto)]

ghost use Rattle.std.specs.Prelude.{◌≤◌, length};

use plan::data::Plan;
use std::env::FillError;
use std::io::{Cursor, Read, Write};
use std::rt::{Env, Files};
use std::{fs, io};

fn main(rt: HostRuntime) -> io::Result<()> {
    if !is_given(&rt, 1) {
        return eprintln!(rt; "routes: name one or more configuration files");
    }
    let several = is_given(&rt, 2);
    for i in 1..usize::MAX {
        if !is_given(&rt, i) {
            break;
        }
        show_file(&rt, i, several)?;
    }
    Ok(())
}

fn is_given(rt: &impl Env, i: usize) -> bool {
    !matches!(rt.arg(i, &mut []), Err(FillError::NotPresent))
}

// The configuration that an argument names, after a line with its name where there are several.
fn show_file(rt: &(impl Env + Files + Print + Eprint), i: usize, several: bool) -> io::Result<()> {
    let mut path = [0u8; 4096];
    let length = rt.arg(i, &mut path).unwrap_or(0);
    let name = str::from_utf8(&path[..length]).unwrap_or("");
    let mut text = [0u8; 65536];
    match read_text(rt, name, &mut text) {
        Ok(count) => {
            if several {
                println!(rt; "file {name}")?;
            }
            show(rt, text::part::between(&text, 0, count))
        }
        Err(error) => say_error(rt, name, error),
    }
}

// What failed, and the system's word for it, without the number that stands behind it.
fn say_error(rt: &impl Eprint, name: &str, error: io::Error) -> io::Result<()> {
    let mut text = Cursor::new([0u8; 320]);
    write!(text, "{error}")?;
    let length = usize::try_from(text.position()).unwrap_or(0);
    let area = text.into_inner();
    let said = str::from_utf8(text::part::between(&area, 0, length)).unwrap_or("");
    let words = match said.split_once(" (os error ") {
        Some((plain, _)) => plain,
        None => said,
    };
    eprintln!(rt; "{name}: {words}")
}

// How many octets a file gave, or that it can't be read. A text longer than the buffer is cut, and longer than any configuration
// all the same.
fn read_text(rt: &impl Files, name: &str, text: &mut [u8]) -> io::Result<usize> {
    let mut file = fs::open(rt, name)?;
    let first = file.read(text)?;
    let more = read_full(&mut file, &mut text[first..]);
    Ok(first + more)
}

// Reads until the buffer is full, the file ends or can't be read on, and answers how many octets came.
fn read_full(file: &mut impl Read, buffer: &mut [u8]) -> usize
    ensures { result ≤ length buffer.new }
{
    let mut done = 0;
    while done < buffer.len() {
        let got = file.read(&mut buffer[done..]).unwrap_or(0);
        if got == 0 {
            break;
        }
        done += got;
    }
    done
}

fn show(rt: &impl Print, text: &[u8]) -> io::Result<()> {
    let made = plan_configuration::configure::configure(text);
    if made.fault == 0 {
        show_list(rt, made.plan)
    } else {
        println!(rt; "config\t{}\t{}", made.line, made.fault)
    }
}

fn show_list(rt: &impl Print, plan: Plan) -> io::Result<()> {
    let links = all_open(plan);
    let marks = [0u32; 512];
    let mut out = [0u8; 4096];
    let words = plan_store::words_of(plan);
    let listed = route_list::list::route_list(&words, &links, &marks, &mut out);
    io::writer(rt).write_all(text::part::between(&out, 0, listed.octets))
}

// The states of the links, each that is given open.
fn all_open(plan: Plan) -> [u32; 256] {
    let mut states = [0u32; 256];
    for (number, link) in plan.links.iter().enumerate() {
        if link.given {
            states[8 * number] = 2;
        }
    }
    states
}
