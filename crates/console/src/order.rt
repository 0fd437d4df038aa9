//! What a line of the terminal asks for: a command of scripts, or one that only makes sense while threads run.
use commands::{Command, Form, Mistake, Part, TextBytes, parse_code, parse_text, split_word};
use flow_rules::Name;
use publisher::OnFull;

/// The commands, as they are listed.
const COMMANDS: &str =
    "sub, request, cancel, leave, offer, retry, submit, publish, wait, close, fail, lag, stats, subscribers, closed, help, quit";

/// How a source publishes a text.
#[derive(Clone, Copy, Debug, PartialEq, Eq)]
pub enum Call {
    /// By `submit`, which waits for room at every subscription.
    Submit,
    /// By `publish`, which waits for room at those that lose nothing.
    Publish,
}

impl Call {
    /// The word of the terminal for it.
    pub fn word(self) -> &'static str {
        match self {
            Call::Submit => "submit",
            Call::Publish => "publish",
        }
    }

    /// Whether it waits for room at a subscription that says this of its full buffer.
    pub fn waits_for(self, on_full: OnFull) -> bool {
        match self {
            Call::Submit => true,
            Call::Publish => on_full.waits(),
        }
    }

    /// The form of its line.
    fn form(self) -> Form {
        let form = match self {
            Call::Submit => "submit SOURCE TEXT",
            Call::Publish => "publish SOURCE TEXT",
        };
        Form::with_two(form, Part::Source, Part::Text)
    }
}

/// What a line asks for.
#[derive(Debug, Drop)]
pub enum Order<'a> {
    /// A command that scripts have, too, and that is done at once.
    Script(Command<'a>),
    /// `sub NAME N drop`: this command, for a subscription that loses a text if `publish` finds its buffer full.
    Lossy(Command<'a>),
    /// `submit SOURCE TEXT` or `publish SOURCE TEXT`: the thread of this source publishes the text, after those that it
    /// was handed before.
    Publish(Call, u32, TextBytes<'a>),
    /// `leave NAME`: the latest subscription of the name that this word is, which has ended, is freed.
    Leave(&'a [u8]),
    /// `wait`: no line is taken until each source has published what it was handed, or waits for a later line.
    Wait,
    /// `lag`: the longest backlog of any subscriber.
    Lag,
    /// `stats`: how each live subscription stands.
    Stats,
    /// `subscribers`: how many subscriptions are live.
    Subscribers,
    /// `closed`: whether the publisher is closed, and how.
    Closed,
    /// `help` or `?`: what may be asked for.
    Help,
    /// `quit` or `exit`: the end, as at the end of the input.
    Quit,
    /// `# TEXT`: nothing.
    Comment,
}

impl<'a> Order<'a> {
    /// The order that a line spells, or what is wrong with it, also if it is a command that only a script has: `cap`,
    /// `late`, `run`, and `submit` without a source.
    pub fn parse(line: &'a [u8]) -> Result<Order<'a>, Mistake<'a>> {
        let (word, rest) = split_word(line);
        if word == b"submit".as_slice() {
            return parse_publication(Call::Submit, rest);
        }
        if word == b"publish".as_slice() {
            return parse_publication(Call::Publish, rest);
        }
        if word == b"leave".as_slice() {
            return parse_leave(rest);
        }
        if let Some(order) = parse_word(line).or(parse_lossy(line)) {
            return Ok(order);
        }
        match Command::parse(line) {
            Some(Command::Cap(_) | Command::Late | Command::Run | Command::Submit(_)) => {
                Err(Mistake::of_start(line, COMMANDS))
            }
            Some(command) => Ok(Order::Script(command)),
            None => Err(mistake_of(line)),
        }
    }
}

/// What stands after `submit` or `publish`.
fn parse_publication(call: Call, words: &[u8]) -> Result<Order<'_>, Mistake<'_>> {
    let (source, text) = split_word(words);
    match (parse_code(source), parse_text(text)) {
        (Some(source), Some(text)) => Ok(Order::Publish(call, source, text)),
        _ => Err(Mistake::of(call.form(), words)),
    }
}

/// The order of a line that subscribes one that may lose texts.
fn parse_lossy(line: &[u8]) -> Option<Order<'_>> {
    match Command::parse(line.strip_suffix(b" drop")?)? {
        command @ Command::Sub(_, _) => Some(Order::Lossy(command)),
        _ => None,
    }
}

/// What stands after `leave`.
fn parse_leave(word: &[u8]) -> Result<Order<'_>, Mistake<'_>> {
    match Name::new(word) {
        Some(_) => Ok(Order::Leave(word)),
        None => Err(Mistake::of(Form::with("leave NAME", Part::Name), word)),
    }
}

/// The order that is one word, or a comment.
fn parse_word<'a>(line: &[u8]) -> Option<Order<'a>> {
    if line.first() == Some(&b'#') {
        Some(Order::Comment)
    } else if line == b"wait".as_slice() {
        Some(Order::Wait)
    } else if line == b"lag".as_slice() {
        Some(Order::Lag)
    } else if line == b"stats".as_slice() {
        Some(Order::Stats)
    } else if line == b"subscribers".as_slice() {
        Some(Order::Subscribers)
    } else if line == b"closed".as_slice() {
        Some(Order::Closed)
    } else if line == b"help".as_slice() || line == b"?".as_slice() {
        Some(Order::Help)
    } else if line == b"quit".as_slice() || line == b"exit".as_slice() {
        Some(Order::Quit)
    } else {
        None
    }
}

/// What is wrong with a line that spells nothing.
fn mistake_of(line: &[u8]) -> Mistake<'_> {
    let (word, rest) = split_word(line);
    if let Some(form) = form_of_look(word) {
        return Mistake::of(form, rest);
    }
    match Form::of_script(word) {
        Some(form) if !is_of_scripts_alone(word) => Mistake::of(form, rest),
        _ => Mistake::of_start(line, COMMANDS),
    }
}

/// The form of an order that is one word.
fn form_of_look(word: &[u8]) -> Option<Form> {
    if word == b"wait".as_slice() {
        Some(Form::word("wait"))
    } else if word == b"lag".as_slice() {
        Some(Form::word("lag"))
    } else if word == b"stats".as_slice() {
        Some(Form::word("stats"))
    } else if word == b"subscribers".as_slice() {
        Some(Form::word("subscribers"))
    } else if word == b"closed".as_slice() {
        Some(Form::word("closed"))
    } else if word == b"help".as_slice() {
        Some(Form::word("help"))
    } else if word == b"quit".as_slice() {
        Some(Form::word("quit"))
    } else {
        None
    }
}

fn is_of_scripts_alone(word: &[u8]) -> bool {
    word == b"cap".as_slice() || word == b"late".as_slice() || word == b"run".as_slice()
}
