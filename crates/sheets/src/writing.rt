//! What is written on a sheet: refusals, lines, rounds and accounts.
ghost use Rattle.std.specs.Prelude.{◌≡◌, true, [], ◌++◌, length, OnOk};
ghost use Rattle.orders.specs.Held.{session_of};
ghost use Rattle.orders.specs.Kept.{SoundLines};
ghost use Rattle.steps.specs.Calls.{is_member};
ghost use Rattle.sheets.specs.Rows.{no_row, round_row, line_rows};
ghost use Rattle.sheets.specs.Sheet.{account_piece, accounts_text};
ghost use Rattle.sheets.specs.Growing.{Marks, marked, Grown};

use crate::growing::Sheet;
use crate::rows::{put_account, put_line, put_no, put_round};
use orders::order::{LAST_MEMBER, Line, MEMBERS};
use session::market::Market;
use std::alloc::{AllocError, Global};
use steps::call::Outcome;
use steps::refusal::Refusal;

impl Sheet {
    /// A sheet with nothing on it.
    pub(crate) fn new(heap: Global) -> Sheet
        ensures text { result.text.items ≡ [] }
        ensures marks { Marks [] result.traded }
    {
        Sheet {
            text: Vec::new(heap),
            traded: [false; MEMBERS],
        }
    }

    /// Adds the row of a refused call.
    pub(crate) fn put_no(&mut self, number: usize, refusal: Refusal) -> Result<(), AllocError>
        ensures { OnOk result (Grown (no_row number refusal) [] self.old self.new) }
    {
        put_no(&mut self.text, number, refusal)
    }

    /// Adds lines.
    pub(crate) fn put_lines(&mut self, lines: &[Line]) -> Result<(), AllocError>
        requires { SoundLines lines.now (length lines.now) }
        ensures { OnOk result (Grown (line_rows lines.now) lines.now self.old self.new) }
    {
        for line in lines {
            put_line(&mut self.text, *line)?;
            self.traded[usize::from(line.member)] = true;
        }
        Ok(())
    }

    /// Adds a round and its lines.
    pub(crate) fn put_round(&mut self, outcome: Outcome, lines: &[Line]) -> Result<(), AllocError>
        requires { SoundLines lines.now (length lines.now) }
        ensures { OnOk result (Grown (round_row outcome ++ line_rows lines.now) lines.now self.old self.new) }
    {
        put_round(&mut self.text, outcome)?;
        self.put_lines(lines)
    }

    /// Adds the accounts of the members that have lines, ascending.
    pub(crate) fn put_accounts<W, S>(&mut self, session: &Market<W, S>) -> Result<(), AllocError>
        ensures { OnOk result (self.new.text.items ≡ self.old.text.items ++ accounts_text (marked self.old.traded) (session_of session.now.tables).accounts) }
    {
        for member in 1..=LAST_MEMBER {
            self.put_member(session, member)?;
        }
        Ok(())
    }

    /// Adds the account of a member, if it has lines.
    fn put_member<W, S>(&mut self, session: &Market<W, S>, member: u8) -> Result<(), AllocError>
        requires { is_member member ≡ true }
        ensures text { OnOk result (self.new.text.items ≡ self.old.text.items ++ account_piece (marked self.old.traded) (session_of session.now.tables).accounts member) }
        ensures marks { self.new.traded ≡ self.old.traded }
    {
        if self.traded[usize::from(member)] {
            if let Ok(account) = session.account(member) {
                put_account(&mut self.text, member, account)?;
            }
        }
        Ok(())
    }
}
