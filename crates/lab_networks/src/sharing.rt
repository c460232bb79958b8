// Networks that fronts share.
ghost use Rattle.std.specs.Prelude.{◌≡◌};
ghost use Rattle.http_edge.specs.Reader.{request_of};
ghost use Rattle.lab_networks.specs.Sharing.{AnswersSo};

use crate::answer::Answer;
use crate::asking::Kind;
use crate::made::Made;
use crate::stepping::apply;
use engine_text::NoMemory;
use http_edge::RequestView;
use std::alloc::Global;
use std::sync::{Arc, Mutex, Wait};

/// Networks that fronts share, behind a lock.
#[derive(Drop)]
pub struct Networks {
    alloc: Global,
    made: Arc<Mutex<Vec<Made>>, Global>,
}

impl Networks {
    /// None was made.
    pub fn new(alloc: Global) -> Result<Networks, NoMemory> {
        let Ok(made) = Arc::new(alloc, Mutex::new(Vec::new(alloc))) else {
            return Err(NoMemory);
        };
        Ok(Networks { alloc, made })
    }

    /// The same networks, for one more that shares them.
    pub fn share(&self) -> Result<Networks, NoMemory> {
        let Ok(made) = Arc::try_clone(&self.made) else {
            return Err(NoMemory);
        };
        Ok(Networks {
            alloc: self.alloc,
            made,
        })
    }

    /// Does what a request asks of them, and answers it. It may wait.
    pub fn answer<R: Wait>(
        &self,
        rt: &R,
        kind: Kind,
        request: &RequestView<'_>,
    ) -> Result<Answer, NoMemory>
        ensures { AnswersSo kind (request_of request.now) result }
    {
        let mut made = self.made.lock(rt);
        apply(self.alloc, kind, request, &mut made)
    }
}
