//! Who hears that a subscriber's `onNext` failed.
mod sent;

ghost use Rattle.std.specs.Prelude.{◌≡◌, None};

use crate::name::Name;

/// Hears that the `onNext` of a subscriber failed (the `handler` of the third constructor of `SubmissionPublisher`,
/// Java SE 17). Its meaning is `last`, the name and the code of the failure that it heard of last.
///
/// A handler need not be `Send`. A publisher that threads share asks for `FailHandler + Send`, at each of its calls and
/// types.
pub trait FailHandler: Drop {
    ghost use Rattle.std.specs.Prelude.{◌≡◌, ℕ, List, Option, Some};

    ghost last: { Self → Option (List ℕ × ℕ) };

    /// Hears that the `onNext` of the subscriber of this name failed with this code. It is called once for each such
    /// failure, after the subscription has ended.
    fn on_fail(&mut self, name: Name, code: u32)
        ensures { last self.new ≡ Some (name, code) };

    /// Tells the name of the subscriber of whose failure it heard last, and the code. `None` if it has heard of no
    /// failure.
    fn last(&self) -> Option<(Name, u32)>
        ensures { result ≡ last self.now };
}

impl FailHandler for Box<dyn FailHandler> {
    ghost last = { λ b. (FailHandler-box b).last b.value };

    fn on_fail(&mut self, name: Name, code: u32) {
        (**self).on_fail(name, code);
    }

    fn last(&self) -> Option<(Name, u32)> {
        (**self).last()
    }
}

/// Keeps the last failure that it hears of, and does nothing else.
#[derive(Clone, Copy, Debug)]
pub struct LastFailure {
    last: Option<(Name, u32)>,
}

impl LastFailure {
    /// Makes a handler that has heard of no failure. It takes no memory.
    pub fn new() -> LastFailure
        ensures { result.last ≡ None }
    {
        LastFailure { last: None }
    }
}

impl Default for LastFailure {
    ghost use Rattle.std.specs.Prelude.{◌≡◌, None};

    ghost is_default = { λ failure. failure.last ≡ None };

    fn default() -> LastFailure {
        LastFailure::new()
    }
}

impl FailHandler for LastFailure {
    ghost last = { λ failure. failure.last };

    fn on_fail(&mut self, name: Name, code: u32) {
        self.last = Some((name, code));
    }

    fn last(&self) -> Option<(Name, u32)> {
        self.last
    }
}
