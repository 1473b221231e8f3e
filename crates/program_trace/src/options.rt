// What the arguments ask for.
use std::fmt;
use std::fmt::{Display, Formatter};
use tool_files::arguments::{Fault, OwnOptions, Places, Wrong, number_of};
use trace_books::asked::Asked;

#[derive(Clone, Copy)]
pub struct Options {
    pub asked: Asked,
    // The place of the picture's file among the arguments.
    pub picture: Option<usize>,
}

// All messages are shown.
impl Default for Options {
    fn default() -> Options {
        Options {
            asked: Asked {
                first: 0,
                last: u64::MAX,
                link: None,
                destination: None,
                circuit: None,
                lost: false,
                twice: false,
                changeovers: false,
            },
            picture: None,
        }
    }
}

#[derive(Clone, Copy)]
pub enum Setting {
    Picture,
    First,
    Last,
    Link,
    Destination,
    Circuit,
}

// What can be wrong.
#[derive(Clone, Copy)]
pub enum WrongOption {
    NoLink,
    NoCode,
    NoCircuit,
}

// What to do about it.
impl Display for WrongOption {
    fn fmt<W: fmt::Write>(&self, f: &mut Formatter<W>) -> fmt::Result {
        f.write_str(match self {
            WrongOption::NoLink => ": not a link; write 0 to 31",
            WrongOption::NoCode => ": not a point's code; write 0 to 16383",
            WrongOption::NoCircuit => ": not a circuit; write 0 to 4095",
        })
    }
}

impl OwnOptions for Options {
    type Setting = Setting;

    type Fault = WrongOption;

    fn set_flag(&mut self, word: &[u8]) -> bool {
        match word {
            b"--lost" => self.asked.lost = true,
            b"--twice" => self.asked.twice = true,
            b"--changeovers" => self.asked.changeovers = true,
            _ => return false,
        }
        true
    }

    fn setting_of(word: &[u8]) -> Option<Setting> {
        match word {
            b"--picture" => Some(Setting::Picture),
            b"--from" => Some(Setting::First),
            b"--to" => Some(Setting::Last),
            b"--link" => Some(Setting::Link),
            b"--destination" => Some(Setting::Destination),
            b"--circuit" => Some(Setting::Circuit),
            _ => None,
        }
    }

    fn set(
        &mut self,
        setting: Setting,
        value: &[u8],
        places: Places,
    ) -> Result<(), Fault<WrongOption>> {
        match setting {
            Setting::Picture => self.picture = Some(places.value),
            Setting::First => self.asked.first = number_of(value, u64::MAX, Fault::NoLine)?,
            Setting::Last => self.asked.last = number_of(value, u64::MAX, Fault::NoLine)?,
            Setting::Link => {
                self.asked.link = Some(number_of(value, 31, Fault::Own(WrongOption::NoLink))?);
            }
            Setting::Destination => {
                self.asked.destination = Some(number_of(
                    value,
                    16383,
                    Fault::Own(WrongOption::NoCode),
                )?);
            }
            Setting::Circuit => {
                self.asked.circuit = Some(number_of(
                    value,
                    4095,
                    Fault::Own(WrongOption::NoCircuit),
                )?);
            }
        }
        Ok(())
    }

    // Whatever is asked for can be done together.
    fn agree(&self) -> Result<(), Wrong<WrongOption>> {
        Ok(())
    }
}
