ghost use Rattle.std.specs.Prelude.{◌≡◌};

use exchange_core::{StepContext, Tool};
use std::alloc::Global;

/// The equipment that frames are processed with. `C` is the type of its engine.
#[derive(Debug, Drop)]
pub struct Machine<C> {
    /// The engine, which carries the frames of the history.
    pub engine: C,
    /// The context of the frames, with the control memory of the next frame.
    pub context: StepContext,
    /// The octets that each external line is sent in a frame.
    pub octets: Vec<[u8; 30]>,
}

impl<C> Machine<C> {
    /// Returns a machine with this engine and this control memory. It allocates nothing.
    pub fn new(alloc: Global, engine: C, tool: Tool) -> Machine<C>
        ensures engine { result.engine ≡ engine }
        ensures tool { result.context.tool ≡ tool }
    {
        Machine {
            engine,
            context: StepContext::new(tool),
            octets: Vec::new(alloc),
        }
    }
}
