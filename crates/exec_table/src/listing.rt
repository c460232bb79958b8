// The execs of one container (Docker Engine API v1.43, definition ContainerInspectResponse, ExecIDs).
ghost use Rattle.std.specs.Prelude.{◌≡◌};
ghost use Rattle.std.specs.Iterator.{YieldsFirstRef, item_count};
ghost use Rattle.std.specs.List.Sorted.{IsStrictlySortedBy};
ghost use Rattle.exec_table.specs.Execs.{execs_of};
ghost use Rattle.exec_table.specs.ExecsInside.{by_row, execs_in, owned_in};

use super::owned::{end_of, exec_at, start_of};
use super::row::{Owned, Row};
use container_table::Rows;
use engine_text::Exec;
use std::marker::Model;

/// An iterator over the execs of one container, seen as the list of those to come.
#[derive(Drop)]
pub struct ExecList<'a> {
    rows: &'a Rows<Row>,
    owned: &'a Rows<Owned>,
    from: usize,
    until: usize,
}

impl<'a> Model for ExecList<'a> {
    ghost use Rattle.std.specs.Prelude.{List};
    ghost use Rattle.engine_text.specs.declared.exec.Exec.{Exec as AnExec};

    ghost Value = { List AnExec };

    ghost use Rattle.exec_table.specs.ExecsInside.{execs_between, IsListed};

    ghost view = { execs_between };

    ghost invariant = { IsListed };
}

impl<'a> ExecList<'a> {
    /// Those of these execs that are of the container.
    pub(crate) fn of(rows: &'a Rows<Row>, owned: &'a Rows<Owned>, container: u64) -> ExecList<'a>
        requires order { IsStrictlySortedBy by_row rows.now.items }
        requires index { owned.now.items ≡ owned_in (execs_in rows.now.items) }
        ensures { result ≡ execs_of container (execs_in rows.now.items) }
    {
        ExecList {
            rows,
            owned,
            from: start_of(owned, container),
            until: end_of(owned, container),
        }
    }
}

impl<'a> Iterator for ExecList<'a> {
    type Item = &'a Exec;

    ghost next_gives = { YieldsFirstRef (λ l. l) };

    ghost remaining = { item_count (λ l. l) };

    fn next(&mut self) -> Option<&'a Exec> {
        if self.until <= self.from {
            return None;
        }
        let found = exec_at(self.rows, self.owned, self.from);
        self.from += 1;
        Some(found)
    }
}
