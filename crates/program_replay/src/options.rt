// What the arguments ask for.
use crate::capture::LinkType;
use std::fmt;
use std::fmt::{Display, Formatter};
use tool_files::arguments::{Fault, OwnOptions, Places, Wrong, number_of};

#[derive(Clone, Copy)]
pub struct Options {
    // The lines of the record whose answers are shown: from the first on, to the last where one is named.
    pub first: u64,
    pub last: Option<u64>,
    // The place of `--only` among the arguments; whether the fates, the calls, words and a summary are shown.
    pub only: Option<usize>,
    pub fates: bool,
    pub calls: bool,
    pub words: bool,
    pub summary: bool,
    // The place of the capture's file among the arguments, and its link type.
    pub capture: Option<usize>,
    pub link_type: LinkType,
}

// All answers are shown, as they stand.
impl Default for Options {
    fn default() -> Options {
        Options {
            first: 0,
            last: None,
            only: None,
            fates: false,
            calls: false,
            words: false,
            summary: false,
            capture: None,
            link_type: LinkType::Mtp2,
        }
    }
}

#[derive(Clone, Copy)]
pub enum Setting {
    First,
    Last,
    Only,
    Capture,
    LinkType,
}

// What can be wrong.
#[derive(Clone, Copy)]
pub enum WrongOption {
    NotReports,
    NoLinkType,
    NotWithOnly,
}

// What to do about it.
impl Display for WrongOption {
    fn fmt<W: fmt::Write>(&self, f: &mut Formatter<W>) -> fmt::Result {
        f.write_str(match self {
            WrongOption::NotReports => ": not what can be shown alone; write --only reports",
            WrongOption::NoLinkType => ": not a link type; write 139 or 141",
            WrongOption::NotWithOnly => ": not with --fates, --calls or --pcap; leave out one",
        })
    }
}

impl OwnOptions for Options {
    type Setting = Setting;

    type Fault = WrongOption;

    fn set_flag(&mut self, word: &[u8]) -> bool {
        match word {
            b"--fates" => self.fates = true,
            b"--calls" => self.calls = true,
            b"--words" => self.words = true,
            b"--summary" => self.summary = true,
            _ => return false,
        }
        true
    }

    fn setting_of(word: &[u8]) -> Option<Setting> {
        match word {
            b"--from" => Some(Setting::First),
            b"--to" => Some(Setting::Last),
            b"--only" => Some(Setting::Only),
            b"--pcap" => Some(Setting::Capture),
            b"--link-type" => Some(Setting::LinkType),
            _ => None,
        }
    }

    fn set(
        &mut self,
        setting: Setting,
        value: &[u8],
        places: Places,
    ) -> Result<(), Fault<WrongOption>> {
        match setting {
            Setting::First => self.first = number_of(value, u64::MAX, Fault::NoLine)?,
            Setting::Last => self.last = Some(number_of(value, u64::MAX, Fault::NoLine)?),
            Setting::Only => {
                reports(value)?;
                self.only = Some(places.option);
            }
            Setting::Capture => self.capture = Some(places.value),
            Setting::LinkType => self.link_type = link_type(value)?,
        }
        Ok(())
    }

    // Of what isn't shown beside reports alone nothing is asked for.
    fn agree(&self) -> Result<(), Wrong<WrongOption>> {
        if self.only.is_some() && (self.fates || (self.calls || self.capture.is_some())) {
            return Err(Wrong {
                fault: Fault::Own(WrongOption::NotWithOnly),
                word: self.only,
            });
        }
        Ok(())
    }
}

// Only reports can be shown alone.
fn reports(value: &[u8]) -> Result<(), Fault<WrongOption>> {
    match value {
        b"reports" => Ok(()),
        _ => Err(Fault::Own(WrongOption::NotReports)),
    }
}

fn link_type(value: &[u8]) -> Result<LinkType, Fault<WrongOption>> {
    match value {
        b"139" => Ok(LinkType::Mtp2),
        b"141" => Ok(LinkType::Mtp3),
        _ => Err(Fault::Own(WrongOption::NoLinkType)),
    }
}
