// Finding what bears a name.
ghost use Rattle.std.specs.Prelude.{◌≡◌, ℕ, List};
ghost use Rattle.std.specs.List.{position};
ghost use Rattle.std.specs.Str.{bytes_eq};
ghost use Rattle.chart.specs.Names.{text_of};

use super::names::Name;
use super::pieces::Message;

// What bears a name.
pub(crate) trait Named {
    ghost called: { Self → List ℕ };

    fn called(&self) -> &[u8]
        ensures { result.now ≡ called self.now };
}

impl Named for Name {
    ghost called = { text_of };

    fn called(&self) -> &[u8] {
        self.text()
    }
}

impl Named for Message {
    ghost called = { λ m. text_of m.name };

    fn called(&self) -> &[u8] {
        self.name.text()
    }
}

// The place of the first item that is called this.
pub(crate) fn find<T: Named>(items: &[T], text: &[u8]) -> Option<usize>
    ensures { result ≡ position (λ x. bytes_eq (T.Named.called x) text.now) items.now }
{
    items.iter().position(|item| item.called() == text)
}
