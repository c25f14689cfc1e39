// What passes are called: their name, and where another has the same name their begin too.
ghost use Rattle.std.specs.Prelude.{◌≡◌, map, string_bytes, IfOk};
ghost use Rattle.passes.specs.Nights.{passes_of};
ghost use Rattle.text.specs.Labels.{shared, label_of, labels_of};
ghost use Rattle.text.specs.Lists.{names_of};

use crate::nights::NamedNight;
use passes::Pass;
use std::alloc::{AllocError, Global};

impl NamedNight {
    // For each pass its name, and where another has the same name, the second in which it begins too.
    pub fn labels(&self, alloc: Global) -> Result<Vec<String>, AllocError>
        ensures { IfOk result (λ ls. map string_bytes ls.items ≡ labels_of (names_of self.now) (passes_of self.now.night)) }
    {
        let mut labels = Vec::new(alloc);
        for (name, pass) in self.names.iter().zip(self.night.passes()) {
            labels.push(self.label(alloc, name, *pass)?)?;
        }
        Ok(labels)
    }

    // What a pass with this name is called.
    fn label(&self, alloc: Global, name: &str, pass: Pass) -> Result<String, AllocError>
        ensures { IfOk result (λ l. string_bytes l ≡ label_of (names_of self.now) name.now pass) }
    {
        if self.is_shared(name) {
            format!(in alloc; "{name}@{}", pass.from)
        } else {
            String::from_str(alloc, name)
        }
    }

    // Whether more than one pass has this name.
    fn is_shared(&self, name: &str) -> bool
        ensures { result ≡ shared (names_of self.now) name.now }
    {
        self.names
            .iter()
            .filter(|other| name == other.as_str())
            .count()
            > 1
    }
}
