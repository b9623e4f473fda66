//! The output of a step in addition to its reply.
use control_memory::Image;

/// The output of a step in addition to its reply: the control memory of the next frame if the event is a frame.
#[derive(Debug, Drop)]
pub enum Tool {
    /// The event is not a frame.
    Nothing,
    /// The control memory of a frame.
    Image(Image),
}

impl Tool {
    ghost use Rattle.std.specs.Prelude.{◌≡◌, option_map};
    ghost use Rattle.std.specs.Borrow.{LendsIf, sem};
    ghost use Rattle.control_memory.specs.contracts.image.Image as control_image;
    ghost use Rattle.exchange_core.specs.contracts.tool.Tool.{the_row};
    ghost use Rattle.exchange_core.specs.declared.tool.Tool.TheVariants as tool;
    ghost use Rattle.exchange_core.specs.Tools.{image_in};

    /// Borrows the control memory. Returns `None` for [`Tool::Nothing`] only. A write to it changes the tool.
    pub fn image(&mut self) -> Option<&mut Image>
        ensures* writes_back { sem 𝓛 (LendsIf the_row control_image.the_row self.entry result tool.Image self.old) }
        ensures image { option_map (λ image. image.now) result ≡ image_in self.old }
    {
        match self {
            Tool::Nothing => None,
            Tool::Image(image) => Some(image),
        }
    }
}
