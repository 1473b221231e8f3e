// The arguments of a program that reads a configuration and a record: the places of both files, what its own options ask for, and the first word that
// is wrong.
use crate::complaint::complain;
use std::env::FillError;
use std::fmt;
use std::fmt::{Display, Formatter};
use std::num::wrapping_add_usize;
use std::rt::Env;
use text::part::between;
use text_decimals::decimal::decimal;

// The places of both files among the arguments.
#[derive(Clone, Copy)]
pub struct Files {
    pub configuration: usize,
    pub record: usize,
}

// What the arguments ask for.
#[derive(Clone, Copy, Drop)]
pub enum Request<O> {
    Help,
    Run(Files, O),
}

// What can be wrong: with the arguments of every program, or with a program's own options.
#[derive(Clone, Copy, Drop)]
pub enum Fault<F> {
    UnknownOption,
    ValueMissing,
    NoLine,
    ThirdFile,
    RecordMissing,
    FilesMissing,
    Own(F),
}

// What to do about it; it stands behind the word that is wrong.
impl<F: Display> Display for Fault<F> {
    fn fmt<W: fmt::Write>(&self, f: &mut Formatter<W>) -> fmt::Result {
        match self {
            Fault::UnknownOption => f.write_str(": there is no such option; --help names all"),
            Fault::ValueMissing => f.write_str(": its value is missing; --help says which"),
            Fault::NoLine => f.write_str(": not the number of a line; write digits alone"),
            Fault::ThirdFile => f.write_str(": a third file; name a configuration and a record"),
            Fault::RecordMissing => {
                f.write_str(": no record behind the configuration; name both")
            }
            Fault::FilesMissing => f.write_str(
                "no files are named; name a configuration and a record, or ask --help",
            ),
            Fault::Own(fault) => fault.fmt(f),
        }
    }
}

// A fault, and the place of the word that it is said of, if it is one's.
#[derive(Clone, Copy, Drop)]
pub struct Wrong<F> {
    pub fault: Fault<F>,
    pub word: Option<usize>,
}

// The places of an option that has a value, and of the value behind it.
#[derive(Clone, Copy)]
pub struct Places {
    pub option: usize,
    pub value: usize,
}

// A program's own options: flags, which stand alone, and settings, which have a value behind them.
pub trait OwnOptions {
    type Setting: Copy;

    type Fault;

    // Whether a word is a flag. What it asks for is noted.
    fn set_flag(&mut self, word: &[u8]) -> bool;

    // The setting that a word names.
    fn setting_of(word: &[u8]) -> Option<Self::Setting>;

    // What a setting asks for is noted.
    fn set(
        &mut self,
        setting: Self::Setting,
        value: &[u8],
        places: Places,
    ) -> Result<(), Fault<Self::Fault>>;

    // Whether all that is asked for can be done together.
    fn agree(&self) -> Result<(), Wrong<Self::Fault>>;
}

// What is read so far: the place of the next word, and whether it is a file whatever it begins with.
#[derive(Clone, Copy)]
struct Reading {
    configuration: Option<usize>,
    record: Option<usize>,
    next: usize,
    ended: bool,
}

// What a word leaves to be done.
#[derive(Clone, Copy)]
enum Step {
    GoOn,
    Help,
    End,
}

// Word after word, up to the first that is wrong or asks for help. The options are those that hold where none is named.
pub fn read<O: OwnOptions + Drop>(
    rt: &HostRuntime,
    options: O,
) -> Result<Request<O>, Wrong<O::Fault>> {
    let mut options = options;
    let mut reading = Reading {
        configuration: None,
        record: None,
        next: 1,
        ended: false,
    };
    for _ in 0..usize::MAX {
        match take_word(rt, &mut reading, &mut options)? {
            Step::GoOn => {}
            Step::Help => return Ok(Request::Help),
            Step::End => break,
        }
    }
    let files = files_of(reading)?;
    options.agree()?;
    Ok(Request::Run(files, options))
}

// Both files are named.
fn files_of<F>(reading: Reading) -> Result<Files, Wrong<F>> {
    let Some(configuration) = reading.configuration else {
        return Err(Wrong {
            fault: Fault::FilesMissing,
            word: None,
        });
    };
    let Some(record) = reading.record else {
        return wrong_at(Fault::RecordMissing, configuration);
    };
    Ok(Files {
        configuration,
        record,
    })
}

// The word at a place is wrong.
fn wrong_at<T, F>(fault: Fault<F>, place: usize) -> Result<T, Wrong<F>> {
    Err(Wrong {
        fault,
        word: Some(place),
    })
}

// The word at a place, in a lent area; none where there is none. One that the area can't hold is empty.
pub fn word_at<'a>(rt: &HostRuntime, at: usize, area: &'a mut [u8; 4096]) -> Option<&'a [u8]> {
    match rt.arg(at, area) {
        Ok(length) => Some(between(area, 0, length)),
        Err(FillError::TooLong) => Some(b""),
        Err(FillError::NotPresent) => None,
    }
}

// The next word: a file, or an option.
fn take_word<O: OwnOptions>(
    rt: &HostRuntime,
    reading: &mut Reading,
    options: &mut O,
) -> Result<Step, Wrong<O::Fault>> {
    let mut area = [0u8; 4096];
    let at = reading.next;
    let Some(word) = word_at(rt, at, &mut area) else {
        return Ok(Step::End);
    };
    reading.next = wrapping_add_usize(at, 1);
    if reading.ended || !is_dashed(word) {
        return take_file(reading, at);
    }
    match word {
        b"--" => reading.ended = true,
        b"--help" => return Ok(Step::Help),
        _ => take_option(rt, reading, options, word, at)?,
    }
    Ok(Step::GoOn)
}

// Whether a word begins with a dash and goes on behind it.
fn is_dashed(word: &[u8]) -> bool {
    matches!(word, [b'-', _, ..])
}

// The word at a place is a file.
fn take_file<F>(reading: &mut Reading, at: usize) -> Result<Step, Wrong<F>> {
    if reading.configuration.is_none() {
        reading.configuration = Some(at);
    } else if reading.record.is_none() {
        reading.record = Some(at);
    } else {
        return wrong_at(Fault::ThirdFile, at);
    }
    Ok(Step::GoOn)
}

// The word at a place is one of the program's options.
fn take_option<O: OwnOptions>(
    rt: &HostRuntime,
    reading: &mut Reading,
    options: &mut O,
    word: &[u8],
    at: usize,
) -> Result<(), Wrong<O::Fault>> {
    if options.set_flag(word) {
        return Ok(());
    }
    let Some(setting) = O::setting_of(word) else {
        return wrong_at(Fault::UnknownOption, at);
    };
    let mut area = [0u8; 4096];
    let place = reading.next;
    let value = match word_at(rt, place, &mut area) {
        Some(value) if !value.is_empty() && !is_dashed(value) => value,
        _ => return wrong_at(Fault::ValueMissing, at),
    };
    reading.next = wrapping_add_usize(place, 1);
    let places = Places {
        option: at,
        value: place,
    };
    match options.set(setting, value, places) {
        Ok(()) => Ok(()),
        Err(fault) => wrong_at(fault, place),
    }
}

// The number that a value says, if it isn't above a top; else the fault.
pub fn number_of<F: Drop>(value: &[u8], top: u64, fault: Fault<F>) -> Result<u64, Fault<F>> {
    match decimal(value, top) {
        Some(number) => Ok(number),
        None => Err(fault),
    }
}

// Says what is wrong, and what to do.
pub fn tell<F: Display + Drop>(rt: &HostRuntime, program: &[u8], wrong: Wrong<F>) {
    let Some(place) = wrong.word else {
        complain(rt, program, b"", wrong.fault);
        return;
    };
    let mut area = [0u8; 4096];
    let word = word_at(rt, place, &mut area).unwrap_or(b"");
    complain(rt, program, word, wrong.fault);
}
