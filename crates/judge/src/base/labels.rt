//! The labels around a statement (ECMA-262, 14.8.1, 14.9.1 and 14.13.1).
ghost use Rattle.std.specs.Prelude.{◌≡◌};
ghost use Rattle.grammar_spec.specs.Judge.Early.{has_label, has_loop_label};
ghost use Rattle.judge.specs.Base.Around.{labels_of};

use base_token::Atom;

/// The labels around a statement, the innermost first, each with whether it labels a loop.
#[derive(Clone, Copy)]
pub enum Labels<'a> {
    /// None.
    Outermost,
    /// A label, whether it labels a loop, and those around it.
    Label(&'a Atom, bool, &'a Labels<'a>),
}

impl<'a> Labels<'a> {
    /// Whether a name is one of them.
    pub fn has(&self, name: &Atom) -> bool
        ensures { result ≡ has_label name.now (labels_of self.now) }
    {
        let mut labels = self;
        while let Labels::Label(label, _, around) = labels {
            if *label == name {
                return true;
            }
            labels = *around;
        }
        false
    }

    /// Whether a name is one of those that label a loop.
    pub fn has_loop(&self, name: &Atom) -> bool
        ensures { result ≡ has_loop_label name.now (labels_of self.now) }
    {
        let mut labels = self;
        while let Labels::Label(label, is_loop, around) = labels {
            if *is_loop && *label == name {
                return true;
            }
            labels = *around;
        }
        false
    }
}
