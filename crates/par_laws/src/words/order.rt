// Texts are equal where their bytes are, and ordered by their bytes.
ghost use Rattle.std.specs.Prelude.{refl, encode_utf8_all};
ghost use Rattle.std.specs.Cmp.{on_equiv, on_per, on_po, on_total, partial_equiv_from_equiv};
ghost use Rattle.std.specs.Cmp.Lexicographic.{nat_list_cmp_total, nat_list_eq_equiv, texts_po, texts_ties};
ghost use Rattle.std.specs.declared.option.Option.TheVariants.{Some};
ghost use Rattle.par_laws.specs.Text.{text_cmp, text_eq};

use crate::words::Words;
use std::cmp::Ordering;

impl PartialEq for Words {
    ghost eq = { text_eq };

    ghost laws = { on_per encode_utf8_all (partial_equiv_from_equiv nat_list_eq_equiv) };

    fn eq(&self, other: &Words) -> bool {
        self.as_str() == other.as_str()
    }
}

impl Eq for Words {
    ghost laws = { on_equiv encode_utf8_all nat_list_eq_equiv };
}

impl PartialOrd for Words {
    ghost partial_cmp = { λ a b. Some (text_cmp a b) };

    ghost laws = { on_po encode_utf8_all texts_po };

    fn partial_cmp(&self, other: &Words) -> Option<Ordering> {
        Some(self.cmp(other))
    }
}

impl Ord for Words {
    ghost cmp = { text_cmp };

    ghost total = { on_total encode_utf8_all nat_list_cmp_total };

    ghost matches_partial_cmp = { λ _ _. refl };

    ghost matches_eq = { λ a b. texts_ties (encode_utf8_all a) (encode_utf8_all b) };

    fn cmp(&self, other: &Words) -> Ordering {
        self.as_str().cmp(other.as_str())
    }
}
