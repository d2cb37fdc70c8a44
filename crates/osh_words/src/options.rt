//! The options of `run`.

ghost use Rattle.std.specs.Prelude.{◌≡◌, ◌≤◌, map, string_bytes, option_map, IfSome, codes};
ghost use Rattle.osh_words.specs.Read.{number_front, number_of, setting_front, with_setting, after_option, after_options, no_options};

use crate::word::number;

/// The options that stand, each at most once.
#[derive(Clone, Copy)]
pub struct Options {
    pub serial: bool,
    pub cap: Option<u32>,
    pub spill: Option<u32>,
}

#[derive(Clone, Copy)]
pub enum Setting {
    Serial,
    Cap(u32),
    Spill(u32),
}

/// How many options there are, each of which may stand once.
const KINDS: usize = 3;

/// A number at the front, and the words behind it.
fn number_front(low: u32, high: u32, words: &[String]) -> Option<(u32, &[String])>
    ensures { option_map (λ x. (x.0, map string_bytes x.1.now)) result ≡ number_front low high (map string_bytes words.now) }
{
    match words {
        [word, rest @ ..] => {
            match number(word.as_str(), u64::from(low), u64::from(high)) {
                Some(n) => Some((n as u32, rest)),
                None => None,
            }
        }
        [] => None,
    }
}

/// An option at the front, and the words behind it.
#[tactic(auto, unfolding(crate::specs::Read::setting_front))]
fn setting_front(words: &[String]) -> Option<(Setting, &[String])>
    ensures { option_map (λ x. (x.0, map string_bytes x.1.now)) result ≡ setting_front (map string_bytes words.now) }
{
    let [word, rest @ ..] = words else {
        return None;
    };
    if word.as_str() == "-serial" {
        return Some((Setting::Serial, rest));
    }
    if word.as_str() == "-cap" {
        return match number_front(1, 1024, rest) {
            Some((cap, rest)) => Some((Setting::Cap(cap), rest)),
            None => None,
        };
    }
    if word.as_str() == "-spill" {
        return match number_front(0, 1024, rest) {
            Some((spill, rest)) => Some((Setting::Spill(spill), rest)),
            None => None,
        };
    }
    None
}

impl Options {
    /// With one more, unless it stands already.
    fn with(self, setting: Setting) -> Option<Options>
        ensures { result ≡ with_setting self setting }
    {
        match setting {
            Setting::Serial => {
                if self.serial {
                    return None;
                }
                Some(Options {
                    serial: true,
                    ..self
                })
            }
            Setting::Cap(cap) => match self.cap {
                Some(_) => None,
                None => Some(Options {
                    cap: Some(cap),
                    ..self
                }),
            },
            Setting::Spill(spill) => match self.spill {
                Some(_) => None,
                None => Some(Options {
                    spill: Some(spill),
                    ..self
                }),
            },
        }
    }
}

/// One more option taken off the front, where one may stand there.
#[tactic(auto, unfolding(crate::specs::Read::after_option))]
fn after_option(options: Options, words: &[String]) -> (Options, &[String])
    ensures { (result.0, map string_bytes result.1.now) ≡ after_option options (map string_bytes words.now) }
{
    match setting_front(words) {
        Some((setting, rest)) => match options.with(setting) {
            Some(more) => (more, rest),
            None => (options, words),
        },
        None => (options, words),
    }
}

/// The options at the front, and the words behind them.
pub fn leading_options(words: &[String]) -> (Options, &[String])
    ensures { (result.0, map string_bytes result.1.now) ≡ after_options 3 no_options (map string_bytes words.now) }
{
    let mut options = Options {
        serial: false,
        cap: None,
        spill: None,
    };
    let mut rest = words;
    for _ in 0..KINDS {
        let (more, behind) = after_option(options, rest);
        options = more;
        rest = behind;
    }
    (options, rest)
}
