ghost use Rattle.std.specs.Prelude.{◌≡◌, OnOk};

use crate::passing::linked;
use crate::script::Task;
use embed::Reply;
use indexmap::IndexMap;
use std::alloc::{AllocError, Global};

// The current instance, and the meanings of the script's names. A name means the number of an instance, or nothing.
#[derive(Drop)]
pub struct Instances {
    pub current: Option<u64>,
    pub named: IndexMap<String, Option<u64>>,
}

impl Instances {
    ghost use Rattle.embed.specs.Replies.{reply_of};
    ghost use Rattle.meaning.specs.scripts.Runner.{instances_after, meant, no_instances, with_current};
    ghost use Rattle.scripts.specs.Runs.{instances_view};
    ghost use Rattle.scripts.specs.Views.{optional_bytes, task_view};

    // Creates an empty map without a current instance.
    pub fn new(alloc: Global) -> Instances
        ensures { instances_view result ≡ no_instances }
    {
        Instances {
            current: None,
            named: IndexMap::new(alloc),
        }
    }

    // Returns the instance that a name means. Without a name, returns the current one.
    pub fn meant(&self, name: &Option<String>) -> Option<u64>
        ensures { result ≡ meant (instances_view self.now) (optional_bytes name.now) }
    {
        match name {
            Some(text) => self.named.get(text.as_str()).copied().flatten(),
            None => self.current,
        }
    }

    // Makes this the current instance, and lets the name, if there is one, mean it.
    fn set_current(
        &mut self,
        alloc: Global,
        name: &Option<String>,
        instance: Option<u64>,
    ) -> Result<(), AllocError>
        ensures { OnOk result (instances_view self.new ≡ with_current (instances_view self.old)
            (optional_bytes name.now) instance) }
    {
        if let Some(text) = name {
            let key = String::from_str(alloc, text.as_str())?;
            self.named.insert(key, instance)?;
        }
        self.current = instance;
        Ok(())
    }

    // Updates the instances after a task with this last reply.
    pub fn settle(&mut self, alloc: Global, task: &Task, reply: &Reply) -> Result<(), AllocError>
        ensures { OnOk result (instances_view self.new ≡ instances_after (instances_view self.old)
            (task_view task.now) (reply_of reply.now)) }
    {
        match task {
            Task::Module { name, .. } => self.set_current(alloc, name, linked(reply)),
            _ => Ok(()),
        }
    }
}
