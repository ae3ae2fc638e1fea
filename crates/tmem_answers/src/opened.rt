//! The first line.
ghost use Rattle.std.specs.Prelude.{Some, map, string_bytes};
ghost use Rattle.tmem_answers.specs.Answers.{opened_line};

use crate::array::Joined;
use std::fmt;

/// The first line that a served store prints, without its line break: how many transactions there are, how many variables, and their
/// names, which have letters, digits and `_` alone.
#[derive(Drop)]
pub struct OpenedLine<'a> {
    pub opened: u64,
    pub vars: u16,
    pub names: &'a [(String, u16)],
}

impl<'a> fmt::Display for OpenedLine<'a> {
    ghost output = { λ line. Some (opened_line line.opened line.vars (map (λ n. (string_bytes n.0, n.1)) line.names.now)) };

    fn fmt<W: fmt::Write>(&self, f: &mut fmt::Formatter<W>) -> fmt::Result {
        write!(
            f,
            "{{\"opened\":{},\"vars\":{},\"names\":{{{}}}}}",
            self.opened,
            self.vars,
            Joined(self.names)
        )
    }
}
