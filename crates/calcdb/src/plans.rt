//! What a script asks of threads.

ghost use Rattle.std.specs.Prelude.{◌≡◌, ◌<◌, ◌++◌, ◌∷◌, [], ℕ, IfOk, OnOk, filter, length, vec_len};
ghost use Rattle.calcdb.specs.Plans.{AreNumbered, as_command, call_commands, call_asked, calls_in, calls_of, has_calls, is_of, key_asked, keys_of, kind_asked, kinds_of};

use crate::thread_commands::ThreadCommand;
use image::Kind;
use procedure::{Call, Key, NoMemory, Sequence, Value};
use std::alloc::Allocator;
use workers::Script;

/// The calls of each session, the kinds of the checkpoints and the keys that are looked up, each in order.
#[derive(Drop)]
pub(crate) struct Plan<A: Allocator> {
    /// A script for each session that makes a call.
    pub scripts: Vec<Script<A>, A>,
    pub kinds: Vec<Kind, A>,
    pub keys: Vec<Key, A>,
    /// How many calls there are.
    pub count: usize,
}

/// The lists that commands fill.
#[derive(Drop)]
struct Lists<A: Allocator> {
    /// At the index of each session its script.
    scripts: Vec<Script<A>, A>,
    kinds: Vec<Kind, A>,
    keys: Vec<Key, A>,
}

/// Makes a script without calls for a session, and for each one below it, where there is none.
fn grow<A: Allocator + Copy>(
    alloc: A,
    scripts: &mut Vec<Script<A>, A>,
    session: u16,
) -> Result<(), NoMemory>
    requires { AreNumbered 0 scripts.old.items }
    ensures numbered { OnOk result (AreNumbered 0 scripts.new.items) }
    ensures calls { OnOk result ((s : ℕ) → calls_in s scripts.new.items ≡ calls_in s scripts.old.items) }
    ensures len { OnOk result (session < vec_len scripts.new) }
{
    while scripts.len() <= usize::from(session) {
        let next = scripts.len() as u16;
        scripts.push(Script {
            session: next,
            calls: Vec::new(alloc),
        })?;
    }
    Ok(())
}

/// Adds a call to the script of its session, which stands at the session's index.
fn add_call<A: Allocator + Copy>(
    alloc: A,
    scripts: &mut Vec<Script<A>, A>,
    call: Call<A>,
) -> Result<(), NoMemory>
    requires { AreNumbered 0 scripts.old.items }
    ensures numbered { OnOk result (AreNumbered 0 scripts.new.items) }
    ensures calls { OnOk result ((s : ℕ) → calls_in s scripts.new.items ≡ calls_in s scripts.old.items ++ filter (is_of s) (as_command call ∷ [])) }
{
    grow(alloc, scripts, call.session)?;
    scripts[usize::from(call.session)].calls.push(call)?;
    Ok(())
}

/// The scripts that have a call.
fn used<A: Allocator>(mut scripts: Vec<Script<A>, A>) -> Vec<Script<A>, A>
    ensures { result.items ≡ filter has_calls scripts.items }
{
    scripts.retain(|script| !script.calls.is_empty());
    scripts
}

impl<A: Allocator + Copy> Lists<A> {
    /// Adds a command to those of its sort.
    fn add(
        &mut self,
        alloc: A,
        command: ThreadCommand<Sequence<Value<A>, A>>,
    ) -> Result<(), NoMemory>
        requires { AreNumbered 0 self.old.scripts.items }
        ensures numbered { OnOk result (AreNumbered 0 self.new.scripts.items) }
        ensures calls { OnOk result ((s : ℕ) → calls_in s self.new.scripts.items ≡ calls_in s self.old.scripts.items ++ filter (is_of s) (call_asked command)) }
        ensures kinds { OnOk result (self.new.kinds.items ≡ self.old.kinds.items ++ kind_asked command) }
        ensures keys { OnOk result (self.new.keys.items ≡ self.old.keys.items ++ key_asked command) }
    {
        match command {
            ThreadCommand::Call(asked) => {
                let call = Call {
                    session: asked.session,
                    number: asked.number,
                    procedure: asked.procedure,
                    args: asked.args,
                };
                add_call(alloc, &mut self.scripts, call)
            }
            ThreadCommand::Checkpoint(kind) => Ok(self.kinds.push(kind)?),
            ThreadCommand::View(key) => Ok(self.keys.push(key)?),
        }
    }
}

/// The plan of a script's commands.
pub(crate) fn plan_of<A: Allocator + Copy>(
    alloc: A,
    commands: Vec<ThreadCommand<Sequence<Value<A>, A>>, A>,
) -> Result<Plan<A>, NoMemory>
    // Of each session the scripts have the calls, in order.
    ensures scripts { IfOk result (λ p. (s : ℕ) → calls_in s p.scripts.items ≡ calls_of s commands.items) }
    ensures kinds { IfOk result (λ p. p.kinds.items ≡ kinds_of commands.items) }
    ensures keys { IfOk result (λ p. p.keys.items ≡ keys_of commands.items) }
    ensures count { IfOk result (λ p. p.count ≡ length (call_commands commands.items)) }
{
    let all = commands.len();
    let mut lists = Lists {
        scripts: Vec::new(alloc),
        kinds: Vec::new(alloc),
        keys: Vec::new(alloc),
    };
    for command in commands {
        lists.add(alloc, command)?;
    }
    let Lists {
        scripts,
        kinds,
        keys,
    } = lists;
    let count = all - kinds.len() - keys.len();
    Ok(Plan {
        scripts: used(scripts),
        kinds,
        keys,
        count,
    })
}
