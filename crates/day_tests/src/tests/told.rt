//! How a day went, and where it went another way than it should.
use super::day::{Day, RefusedDay};
use std::alloc::{AllocError, Global};

// What the steps of a day answered, in order, and what was left at its end, line by line. After a wait that did not end
// there is no more.
#[derive(Drop)]
pub struct Told {
    pub answers: Vec<String>,
    pub left: Vec<String>,
}

impl Told {
    // The first place at which the day went another way, with what the day says there and what was found, a line each.
    pub fn difference(&self, alloc: Global, day: &Day) -> Result<Option<String>, AllocError> {
        if let Some(place) = self.wrong_step(day, &[]) {
            let wanted = day
                .steps
                .get(place)
                .map_or("nothing", |(_, wanted)| *wanted);
            let found = text_at(&self.answers, place);
            return Ok(Some(compared(alloc, "step", place, wanted, found)?));
        }
        let Some(place) = self.wrong_line(day.left) else {
            return Ok(None);
        };
        let wanted = day.left.get(place).copied().unwrap_or("nothing");
        let found = text_at(&self.left, place);
        Ok(Some(compared(alloc, "line of what is left", place, wanted, found)?))
    }

    // Whether the day went as it should if one request for memory may have been refused: as it says; or in one of the
    // other ways; or it was the end that was refused it, so that no lane is left.
    pub fn is_of(&self, refused: &RefusedDay) -> bool {
        let RefusedDay { day, others } = refused;
        if self.wrong_step(day, &[]).is_none() {
            if self.wrong_line(day.left).is_none() || self.ends_without_memory() {
                return true;
            }
        }
        others.iter().any(|other| {
            self.wrong_step(day, other.answers).is_none() && self.wrong_line(other.left).is_none()
        })
    }

    // The place of the first step that answered something else than the day says, or than these other answers say.
    fn wrong_step(&self, day: &Day, others: &[(usize, &str)]) -> Option<usize> {
        for (place, (_, wanted)) in day.steps.iter().enumerate() {
            let wanted = answer_to(place + 1, others).unwrap_or(*wanted);
            if text_at(&self.answers, place) != wanted {
                return Some(place);
            }
        }
        None
    }

    // The place of the first line that is left and is not among these, or the other way round.
    fn wrong_line(&self, lines: &[&str]) -> Option<usize> {
        for (place, line) in lines.iter().enumerate() {
            if text_at(&self.left, place) != *line {
                return Some(place);
            }
        }
        (self.left.len() > lines.len()).then_some(lines.len())
    }

    // Whether the end was refused memory, and no lane is left.
    fn ends_without_memory(&self) -> bool {
        text_at(&self.left, 0).starts_with("NoMemory, ")
            && !self
                .left
                .iter()
                .any(|line| line.contains(" + ") || line.contains("refused"))
    }
}

// The other answer of the step of this number, if it has one.
fn answer_to<'a>(number: usize, others: &[(usize, &'a str)]) -> Option<&'a str> {
    for (step, answer) in others {
        if *step == number {
            return Some(*answer);
        }
    }
    None
}

fn text_at(lines: &[String], place: usize) -> &str {
    match lines.get(place) {
        Some(line) => line.as_str(),
        None => "nothing",
    }
}

fn compared(
    alloc: Global,
    what: &str,
    place: usize,
    wanted: &str,
    found: &str,
) -> Result<String, AllocError> {
    let number = place.saturating_add(1);
    format!(in alloc; "{what} {number}\n    wanted: {wanted}\n    found:  {found}")
}
