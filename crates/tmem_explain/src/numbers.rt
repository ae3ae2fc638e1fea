//! Which numbers a store has, beside those that were asked for.
ghost use Rattle.std.specs.Prelude.{Some};
ghost use Rattle.tmem_explain.specs.Helps.{numbers_help};

use std::fmt;
use tmem_record::Layout;

/// Why numbers of variables and log slots are refused, and what to do.
#[derive(Clone, Copy)]
pub enum NumbersHelp {
    /// No store may have them.
    Limits {
        vars: u16,
        slots: u16,
    },
    /// The store has these.
    Other {
        vars: u16,
        slots: u16,
        had_vars: u16,
        had_slots: u16,
    },
    /// The file has so many bytes, where a store of the numbers has so many.
    Short {
        vars: u16,
        slots: u16,
        has: u64,
        wants: u64,
    },
    /// A store was to be made in a file that has so many bytes, and takes so many.
    NoRoom {
        has: u64,
        wants: u64,
    },
    /// The same where not all of these bytes are 0.
    NotBlank {
        has: u64,
        wants: u64,
    },
}

impl NumbersHelp {
    ghost use Rattle.std.specs.Prelude.{◌≡◌};
    ghost use Rattle.tmem_explain.specs.Numbers.{new_numbers, store_numbers};

    /// Why a store of this layout is not in a file of so many bytes, whose block 0 has these numbers of variables and log slots, if it is
    /// that of a store: those are others, or the bytes are too few.
    pub fn of_store(layout: Layout, had: Option<(u16, u16)>, has: u64) -> Option<NumbersHelp>
        ensures { result ≡ store_numbers layout.vars layout.slots had has }
    {
        let (vars, slots) = (layout.vars, layout.slots);
        if let Some((had_vars, had_slots)) = had {
            if had_vars != vars || had_slots != slots {
                return Some(NumbersHelp::Other {
                    vars,
                    slots,
                    had_vars,
                    had_slots,
                });
            }
        }
        let wants = layout.end();
        if has >= wants {
            return None;
        }
        Some(NumbersHelp::Short {
            vars,
            slots,
            has,
            wants,
        })
    }

    /// Why a new store of this layout is not put where there are so many bytes, which are all 0 or not: they are too few.
    pub fn of_new(layout: Layout, is_blank: bool, has: u64) -> Option<NumbersHelp>
        ensures { result ≡ new_numbers layout.vars layout.slots is_blank has }
    {
        let wants = layout.end();
        if has >= wants {
            None
        } else if is_blank {
            Some(NumbersHelp::NoRoom { has, wants })
        } else {
            Some(NumbersHelp::NotBlank { has, wants })
        }
    }
}

impl fmt::Display for NumbersHelp {
    ghost output = { λ help. Some (numbers_help help) };

    fn fmt<W: fmt::Write>(&self, f: &mut fmt::Formatter<W>) -> fmt::Result {
        match self {
            NumbersHelp::Limits { vars, slots } => write!(
                f,
                "a store has 1 to 1024 variables and 2 to 64 log slots, and {vars} and {slots} were asked for"
            ),
            NumbersHelp::Other {
                vars,
                slots,
                had_vars,
                had_slots,
            } => write!(
                f,
                "the store has {had_vars} variables and {had_slots} log slots, and {vars} and {slots} were asked for; check both paths; open the store with the shape or script that it was made with (to change the numbers in another opens it under other invariants); only if this very file had the others before, something changed it: move it away, and put a backup in its place (what the backup lacks is lost)"
            ),
            NumbersHelp::Short {
                vars,
                slots,
                has,
                wants,
            } => write!(
                f,
                "it has {has} bytes, and a store of {vars} variables and {slots} log slots has {wants}; check the path, or move it away and put a backup in its place (what the backup lacks is lost)"
            ),
            NumbersHelp::NoRoom { has, wants } => write!(
                f,
                "it has {has} bytes, and the store takes {wants}; if a store was there, restore a backup; else make it at least so long, or name another"
            ),
            NumbersHelp::NotBlank { has, wants } => write!(
                f,
                "it has {has} bytes, not all of them 0, and the store takes {wants}; if a store was there, move this away, and put a backup in its place; else name another"
            ),
        }
    }
}
