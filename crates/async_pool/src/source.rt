//! What jobs are taken from, whatever it is: so that of each it has to be asked, and no other can stand for it.
ghost use Rattle.std.specs.Prelude.{List, IfNone};
ghost use Rattle.async_pool.specs.Source.{Drains, WereDrained, WereEmpty};

use std::sync::Wait;

/// A queue at which any thread takes jobs, the first that came first.
pub(crate) trait Source<J> {
    /// It held no job at one moment.
    ghost was_empty: { Self → Type 0 };

    /// These jobs were taken there, one after another, and then it held none at one moment.
    ghost was_drained: { Self → List J → Type 0 };

    /// Takes the first job, if there is one.
    fn steal<R: Wait>(&self, rt: &R) -> Option<J>
        ensures { IfNone result (was_empty self.now) };

    /// Takes jobs and appends them to `left`, until there was none at one moment or `left` has no more room.
    fn drain_into<R: Wait>(&self, rt: &R, left: &mut Vec<J>)
        ensures { Drains (was_drained self.now) left.old left.new };
}

/// Takes the first job of the first source that has one. One of them may be left out.
pub(crate) fn steal_first<J: Drop, T: Source<J>, R: Wait>(
    rt: &R,
    sources: &[T],
    left_out: Option<usize>,
) -> Option<J>
    ensures { IfNone result (WereEmpty T.was_empty sources.now left_out) }
{
    for (place, source) in sources.iter().enumerate() {
        if Some(place) == left_out {
            continue;
        }
        let job = source.steal(rt);
        if job.is_some() {
            return job;
        }
    }
    None
}

/// Takes the jobs of each source, one source after another, and appends them to `left`, as far as that has room.
pub(crate) fn drain_each<J: Drop, T: Source<J>, R: Wait>(rt: &R, sources: &[T], left: &mut Vec<J>)
    ensures { Drains (WereDrained T.was_drained sources.now) left.old left.new }
{
    for source in sources {
        source.drain_into(rt, left);
    }
}
