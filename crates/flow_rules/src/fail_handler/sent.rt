//! A boxed handler of failures that may go to another thread.
use super::FailHandler;
use crate::name::Name;

impl FailHandler for Box<dyn FailHandler + Send> {
    ghost last = { λ b. (FailHandler-box b).last b.value };

    fn on_fail(&mut self, name: Name, code: u32) {
        (**self).on_fail(name, code);
    }

    fn last(&self) -> Option<(Name, u32)> {
        (**self).last()
    }
}
