//! All objects that are reached from some ids.

ghost use Rattle.std.specs.Prelude.{◌≡◌, ◌++◌, [], ◌∷◌, IfOk, OnOk};
ghost use Rattle.std.specs.List.{filter_map};
ghost use Rattle.objstore.specs.Entries.{object_at};
ghost use Rattle.objstore.specs.Reach.{links_in};
ghost use Rattle.objstore.specs.Reached.{AreReached};
ghost use Rattle.objstore.specs.Walk.{all_queued};

use crate::queue::Queue;
use crate::store::{Store, push_links};
use px_base::{ObjectId, Objects};
use std::alloc::{AllocError, Global};

impl Store {
    /// Copies of the objects that the walk from the tips takes, in the order in which it takes them. An
    /// id without an object here has no links, and is passed over.
    pub fn reached(&self, alloc: Global, tips: &[ObjectId]) -> Result<Objects, AllocError>
        ensures { IfOk result (AreReached (object_at self.now) tips.now) }
    {
        let mut found = Objects::new(alloc);
        let mut queue = Queue::new(alloc);
        queue.push_all(tips)?;
        while let Some(id) = queue.take() {
            self.follow(alloc, &id, &mut queue, &mut found)?;
        }
        Ok(found)
    }

    // Adds a copy of the object of an id, if there is one here, and puts its links to the queue.
    fn follow(
        &self,
        alloc: Global,
        id: &ObjectId,
        queue: &mut Queue,
        found: &mut Objects,
    ) -> Result<(), AllocError>
        ensures queue { OnOk result (queue.new
            ≡ all_queued queue.old (links_in (object_at self.now id.now))) }
        ensures found { OnOk result (found.new
            ≡ found.old ++ filter_map (object_at self.now) (id.now ∷ [])) }
    {
        let Some(object) = self.get(id) else {
            return Ok(());
        };
        push_links(alloc, object, queue)?;
        found.push(object.copy(alloc)?)?;
        Ok(())
    }
}
