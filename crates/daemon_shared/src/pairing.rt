// A pass of a connection, of which the turns of its standard input may be taken apart.
ghost use Rattle.std.specs.Prelude.{◌≡◌, IfSome, IfNone};
ghost use Rattle.daemon_core.specs.Pairing.{IsOther, Rejoined};
ghost use Rattle.daemon_shared.specs.Sharing.{shared_pass};

use crate::shared::Shared;
use daemon_core::{Pairs, input_of};
use std::alloc::Global;
use std::sync::Wait;

impl<'a, R: Wait + Sync> Pairs for Shared<'a, R> {
    type Other = Shared<'a, R>;

    fn part(&mut self, alloc: Global, conn: u32) -> Option<Shared<'a, R>> {
        match self
            .lock
            .admit(self.rt, alloc, &mut self.pass, input_of(conn))
        {
            Ok(theirs) => Some(Shared::new(self.rt, self.lock, theirs)),
            Err(_) => unreachable!(),
        }
    }

    fn rejoin(&mut self, conn: u32, other: Option<Shared<'a, R>>)
        requires { IfSome other (λ o. IsOther conn
            (shared_pass self.old.pass.table_id self.old.pass.me.0)
            (shared_pass o.pass.table_id o.pass.me.0)) }
        ensures none { IfNone other.entry
            (shared_pass self.new.pass.table_id self.new.pass.me.0
            ≡ shared_pass self.old.pass.table_id self.old.pass.me.0) }
        ensures some { IfSome other.entry (λ o. Rejoined conn
            (shared_pass self.old.pass.table_id self.old.pass.me.0)
            (shared_pass o.pass.table_id o.pass.me.0)
            (shared_pass self.new.pass.table_id self.new.pass.me.0)) }
    {
        let _ = conn;
        if let Some(other) = other {
            let mut theirs = other.into_pass();
            self.lock.learn(&mut theirs);
            self.lock.learn(&mut self.pass);
            self.lock.join(&mut self.pass, theirs);
        }
    }
}
