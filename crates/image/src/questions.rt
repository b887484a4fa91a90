// The questions that are put to each file of the chain in turn.
ghost use Rattle.std.specs.Prelude.{◌≡◌, ℕ, ◌<◌, Decides, not};
ghost use Rattle.image.specs.Opening.{New, NamedAt, Asked};

use crate::chain::Chain;
use store_path::{ends_with_drv, is_store_path};

// Yes at every file of the chain, or the first slot at which the answer is no.
pub fn ask_each<F: Fn(usize) -> bool>(chain: &Chain<'_>, ask: F) -> Result<(), u16>
    requires { (n : ℕ) → n < chain.now.count → F.pre ask n }
    ensures { Asked chain.now.bytes.now (F.post ask) chain.now.count result }
{
    let refused = (0..chain.count).find(
        |n| -> bool
            requires { F.pre ask n.now }
            ensures { F.post ask n.now (not result) }
        { !ask(*n) },
    );
    match refused {
        Some(n) => Err(chain.slot(n).index),
        None => Ok(()),
    }
}

// Whether the path of the file after n links is a store path that ends in `.drv`.
pub fn is_named(chain: &Chain<'_>, n: usize) -> bool
    requires { n < chain.now.count }
    ensures { Decides result (NamedAt chain.now.bytes.now n) }
{
    let path = chain.slot(n).named_path();
    is_store_path(path) && ends_with_drv(path)
}

// Whether that path is of no earlier file.
pub fn is_new(chain: &Chain<'_>, n: usize) -> bool
    requires { n < chain.now.count }
    ensures { Decides result (New chain.now.bytes.now n) }
{
    let path = chain.slot(n).named_path();
    !(0..n).any(|m| chain.slot(m).named_path() == path)
}
