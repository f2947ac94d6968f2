//! Members of classes.
ghost use Rattle.std.specs.Prelude.{◌≡◌, ◌==◌, ◌&&◌, ◌||◌, MatchOption, codes, false, not, true, if◌then◌else◌};
ghost use Rattle.base_token.specs.Words.{own_text};
ghost use Rattle.tree_spec.specs.Tree.{part_by, plain_method, trees_by};
ghost use Rattle.print_gaps.specs.Edges.{is_there, starts_with_word};
ghost use Rattle.tree_nodes.specs.View.{method_kind_word, view_auto_accessor, view_block_stmt, view_class_member, view_class_method, view_class_prop, view_constructor, view_param, view_private_method, view_private_prop, view_prop_name, view_static_block};
ghost use Rattle.print_layout_spec.specs.Looks.{◌·◌, when, text, blank, gap, gap_or};
ghost use Rattle.print_layout_spec.specs.Layout.{laid, after_static, comma, field_value, in_parens, is_sequence, method_marks, separated};
ghost use Rattle.print_layout_spec.specs.declared.look.Stand.TheVariants.{Alone};
ghost use Rattle.print_pieces.specs.Prints.{Prints};
ghost use Rattle.print_pieces.specs.Texts.{bytes};

use crate::functions::{print_marks, print_params};
use crate::keys::starts_with_word;
use crate::lists::print_each;
use crate::print::{Print, PrintPart, print_initial};
use print_layout_spec::{Look, Stand};
use print_pieces::{Printer, Text};
use print_writers::WriteJs;
use tree_nodes::{
    AutoAccessorOf, ClassMemberOf, ClassMethodOf, ClassPropOf, ConstructorOf, FunctionOf,
    MethodKind, PrivateMethodOf, PrivatePropOf, StaticBlockOf,
};

impl<T: PrintPart> Print for ConstructorOf<T> {
    ghost tree = { view_constructor T.tree };

    fn print<W: WriteJs>(&self, p: &mut Printer<W>, look: Look, _stand: Stand) {
        p.start(self.span);
        p.text(Text::Constructor);
        print_params(self.params.as_slice(), p, look);
        self.body.print(p, look, Stand::Alone);
    }
}

impl<T: PrintPart> Print for StaticBlockOf<T> {
    ghost tree = { view_static_block T.tree };

    fn print<W: WriteJs>(&self, p: &mut Printer<W>, look: Look, _stand: Stand) {
        p.start(self.span);
        p.text(Text::Static);
        self.body.print(p, look, Stand::Alone);
        p.end(self.span);
    }
}

/// Prints the value of a field, where it has one.
fn print_field_value<T: PrintPart, W: WriteJs>(value: &Option<T>, p: &mut Printer<W>, look: Look)
    ensures { Prints W.tells W.state W.failed_writes W.loans
        (field_value look (part_by T.tree value.now) (laid look Alone (part_by T.tree value.now))) p.old.wr p.old.fault p.new.wr p.new.fault }
{
    if let Some(value) = value {
        p.gap(look);
        p.text(Text::Equals);
        p.gap(look);
        print_single(value, p, look);
    }
}

/// Prints an expression, in parentheses where it has commas.
fn print_single<T: PrintPart, W: WriteJs>(e: &T, p: &mut Printer<W>, look: Look)
    ensures laid { Prints W.tells W.state W.failed_writes W.loans
        (if is_sequence (T.tree e.now) then in_parens (laid look Alone (T.tree e.now)) else laid look Alone (T.tree e.now)) p.old.wr p.old.fault p.new.wr p.new.fault }
    ensures there { is_there (T.tree e.now) ≡ true }
{
    if e.is_sequence() {
        p.text(Text::LeftParen);
        e.print(p, look, Stand::Alone);
        p.text(Text::RightParen);
    } else {
        e.print(p, look, Stand::Alone);
    }
}

/// The word that a getter or a setter starts with.
#[tactic(auto, unfolding(base_token::specs::Words::own_text))]
fn accessor_word(kind: MethodKind) -> Option<Text>
    ensures { MatchOption result (method_kind_word kind ≡ plain_method)
        (λ t. (bytes t ≡ own_text (method_kind_word kind)) × ((method_kind_word kind == plain_method) ≡ false)) }
{
    match kind {
        MethodKind::Method => None,
        MethodKind::Getter => Some(Text::Get),
        MethodKind::Setter => Some(Text::Set),
    }
}

/// Whether a blank stands behind `static` of a method in any style: before `get`, `set`, `async` and a word.
fn blank_behind_static<T: PrintPart>(method: &ClassMethodOf<T>) -> bool
    ensures { result ≡ ((not (method_kind_word method.now.kind == plain_method) || method.now.function.value.is_async)
        || (not method.now.function.value.is_generator && starts_with_word (view_prop_name T.tree method.now.key))) }
{
    !matches!(method.kind, MethodKind::Method)
        || method.function.is_async
        || (!method.function.is_generator && starts_with_word(&method.key))
}

/// Prints `static` of a method, where it is one.
fn print_static<T: PrintPart, W: WriteJs>(method: &ClassMethodOf<T>, p: &mut Printer<W>, look: Look)
    ensures { Prints W.tells W.state W.failed_writes W.loans
        (when method.now.is_static (text (codes "static")
        · after_static look (method_kind_word method.now.kind) method.now.function.value.is_generator method.now.function.value.is_async (view_prop_name T.tree method.now.key)))
        p.old.wr p.old.fault p.new.wr p.new.fault }
{
    if method.is_static {
        p.text(Text::Static);
        p.gap_or(look, blank_behind_static(method));
    }
}

/// Prints what stands before the key of a method: its marks, or `get` or `set`.
fn print_method_head<T: PrintPart, W: WriteJs>(
    method: &ClassMethodOf<T>,
    p: &mut Printer<W>,
    look: Look,
)
    ensures { Prints W.tells W.state W.failed_writes W.loans
        (if method_kind_word method.now.kind == plain_method then method_marks method.now.function.value.is_async method.now.function.value.is_generator
        else text (own_text (method_kind_word method.now.kind)) · gap_or look (starts_with_word (view_prop_name T.tree method.now.key)))
        p.old.wr p.old.fault p.new.wr p.new.fault }
{
    match accessor_word(method.kind) {
        None => print_marks(method.function.is_async, method.function.is_generator, p),
        Some(word) => {
            p.text(word);
            p.gap_or(look, starts_with_word(&method.key));
        }
    }
}

/// Prints what stands before the name of a private method: its marks, or `get` or `set`.
fn print_private_head<T: PrintPart, W: WriteJs>(method: &PrivateMethodOf<T>, p: &mut Printer<W>)
    ensures { Prints W.tells W.state W.failed_writes W.loans
        (if method_kind_word method.now.kind == plain_method then method_marks method.now.function.value.is_async method.now.function.value.is_generator
        else text (own_text (method_kind_word method.now.kind)) · blank)
        p.old.wr p.old.fault p.new.wr p.new.fault }
{
    match accessor_word(method.kind) {
        None => print_marks(method.function.is_async, method.function.is_generator, p),
        Some(word) => {
            p.text(word);
            p.blank();
        }
    }
}

impl<T: PrintPart> Print for PrivateMethodOf<T> {
    ghost tree = { view_private_method T.tree };

    fn print<W: WriteJs>(&self, p: &mut Printer<W>, look: Look, _stand: Stand) {
        p.start(self.span);
        p.word_if(self.is_static, Text::Static);
        print_private_head(self, p);
        self.key.print(p, look, Stand::Key);
        self.function.print(p, look, Stand::Alone);
    }
}

impl<T: PrintPart> Print for PrivatePropOf<T> {
    ghost tree = { view_private_prop T.tree };

    fn print<W: WriteJs>(&self, p: &mut Printer<W>, look: Look, _stand: Stand) {
        p.start(self.span);
        print_each(self.decorators.as_slice(), p, look);
        p.word_if(self.is_static, Text::Static);
        self.key.print(p, look, Stand::Key);
        print_field_value(&self.value, p, look);
        p.semi();
        p.end(self.span);
    }
}

impl<T: PrintPart> Print for ClassPropOf<T> {
    ghost tree = { view_class_prop T.tree };

    fn print<W: WriteJs>(&self, p: &mut Printer<W>, look: Look, _stand: Stand) {
        p.start(self.span);
        print_each(self.decorators.as_slice(), p, look);
        p.word_if(self.is_static, Text::Static);
        self.key.print(p, look, Stand::Key);
        print_field_value(&self.value, p, look);
        p.semi();
        p.end(self.span);
    }
}

impl<T: PrintPart> Print for AutoAccessorOf<T> {
    ghost tree = { view_auto_accessor T.tree };

    fn print<W: WriteJs>(&self, p: &mut Printer<W>, look: Look, _stand: Stand) {
        print_each(self.decorators.as_slice(), p, look);
        p.word_if(self.is_static, Text::Static);
        p.text(Text::Accessor);
        p.blank();
        self.key.print(p, look, Stand::Key);
        print_initial(&self.value, p, look);
        p.semi();
    }
}

/// Prints the parameters and the body of a method, where the body marks its start.
fn print_method_tail<T: PrintPart, W: WriteJs>(
    function: &FunctionOf<T>,
    p: &mut Printer<W>,
    look: Look,
)
    ensures { Prints W.tells W.state W.failed_writes W.loans
        (in_parens (separated look (comma look) (trees_by (view_param T.tree) function.now.params.items)) · gap look
        · laid look Alone (view_block_stmt T.tree function.now.body))
        p.old.wr p.old.fault p.new.wr p.new.fault }
{
    print_params(function.params.as_slice(), p, look);
    p.gap(look);
    function.body.print(p, look, Stand::Alone);
}

impl<T: PrintPart> Print for ClassMethodOf<T> {
    ghost tree = { view_class_method T.tree };

    fn print<W: WriteJs>(&self, p: &mut Printer<W>, look: Look, _stand: Stand) {
        p.start(self.span);
        print_each(self.function.decorators.as_slice(), p, look);
        print_static(self, p, look);
        print_method_head(self, p, look);
        self.key.print(p, look, Stand::Key);
        print_method_tail(&self.function, p, look);
    }
}

impl<T: PrintPart> Print for ClassMemberOf<T> {
    ghost tree = { view_class_member T.tree };

    fn print<W: WriteJs>(&self, p: &mut Printer<W>, look: Look, stand: Stand) {
        match self {
            ClassMemberOf::Constructor(x) => x.print(p, look, stand),
            ClassMemberOf::Method(x) => x.print(p, look, stand),
            ClassMemberOf::PrivateMethod(x) => x.print(p, look, stand),
            ClassMemberOf::ClassProp(x) => x.print(p, look, stand),
            ClassMemberOf::PrivateProp(x) => x.print(p, look, stand),
            ClassMemberOf::StaticBlock(x) => x.print(p, look, stand),
            ClassMemberOf::AutoAccessor(x) => x.print(p, look, stand),
            ClassMemberOf::Empty(x) => x.print(p, look, stand),
        }
    }
}
