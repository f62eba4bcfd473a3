//! What the sizes of templates say of windows.
ghost use Rattle.rv_templ.specs.Templates.{AreTemplates};
ghost use Rattle.rv_templ.specs.inside.Library.{templates_in};
ghost use Rattle.rv_templ.specs.inside.Sizes.{AreSizes};

use crate::image::{TEMPLATE_GATES, span};
use crate::library::template_of;
use rv_gate::Gate;

/// How many gates templates have and how many lines they touch.
#[derive(Clone, Copy)]
pub struct Sizes {
    // None has more gates.
    pub most: usize,
    // None has fewer gates.
    pub least: usize,
    // None touches more lines.
    pub wide: u32,
}

/// The sizes of the templates.
pub fn sizes_of(templates: &[Vec<Gate>]) -> Sizes
    requires { AreTemplates (templates_in templates.now) }
    ensures { AreSizes result.most result.least result.wide (templates_in templates.now) }
{
    let mut most = 0;
    let mut least = TEMPLATE_GATES;
    let mut wide = 0;
    for t in 0..templates.len() {
        let template = template_of(templates, t);
        let len = template.len();
        most = len.max(most);
        least = len.min(least);
        wide = span(template).count_ones().max(wide);
    }
    Sizes { most, least, wide }
}
