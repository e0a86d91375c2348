//! The kinds of entities and of infix operators.
ghost use Rattle.std.specs.Prelude.{◌≡◌};
ghost use Rattle.pc_tree.specs.Kinds as spec;

/// The kind of an entity, by its keyword (the Pony tutorial).
#[derive(Clone, Copy, Debug, PartialEq, Eq)]
pub enum EntityKind {
    Class,
    Actor,
    Primitive,
    Trait,
    /// An interface: like a trait, but other entities conform to it by their methods alone.
    Interface,
}

impl EntityKind {
    /// Whether it is a trait or an interface, which have no objects of their own.
    pub fn is_abstract(self) -> bool
        ensures { result ≡ spec.is_abstract self }
    {
        match self {
            EntityKind::Class | EntityKind::Actor | EntityKind::Primitive => false,
            EntityKind::Trait | EntityKind::Interface => true,
        }
    }

    /// Whether a capability may be written after its keyword.
    pub fn may_have_cap(self) -> bool
        ensures { result ≡ spec.may_have_cap self }
    {
        match self {
            EntityKind::Class | EntityKind::Trait | EntityKind::Interface => true,
            EntityKind::Actor | EntityKind::Primitive => false,
        }
    }

    /// Whether it may have fields.
    pub fn may_have_fields(self) -> bool
        ensures { result ≡ spec.may_have_fields self }
    {
        match self {
            EntityKind::Class | EntityKind::Actor => true,
            EntityKind::Primitive | EntityKind::Trait | EntityKind::Interface => false,
        }
    }

    /// Whether it may contain methods with this keyword.
    pub fn may_hold(self, word: MethodWord) -> bool
        ensures { result ≡ spec.may_stand self word }
    {
        match word {
            MethodWord::Fun => true,
            MethodWord::Be => match self {
                EntityKind::Actor | EntityKind::Trait | EntityKind::Interface => true,
                EntityKind::Class | EntityKind::Primitive => false,
            },
            MethodWord::New => match self {
                EntityKind::Class | EntityKind::Actor => true,
                EntityKind::Primitive | EntityKind::Trait | EntityKind::Interface => false,
            },
        }
    }

    /// Whether a capability may be written after the keyword of such a method in it.
    pub fn may_have_method_cap(self, word: MethodWord) -> bool
        ensures { result ≡ spec.may_have_method_cap self word }
    {
        match word {
            MethodWord::Fun => true,
            MethodWord::Be => false,
            MethodWord::New => match self {
                EntityKind::Class => true,
                EntityKind::Actor
                | EntityKind::Primitive
                | EntityKind::Trait
                | EntityKind::Interface => false,
            },
        }
    }
}

/// An infix operator. There is no precedence among them: different operators must be separated by parentheses (the Pony
/// tutorial).
#[derive(Clone, Copy, Debug, PartialEq, Eq)]
pub enum Op {
    /// `+`
    Add,
    /// `-`
    Sub,
    /// `*`
    Mul,
    /// `/`
    Div,
    /// `%`
    Rem,
    /// `==`
    Eq,
    /// `!=`
    Ne,
    /// `<`
    Lt,
    /// `<=`
    Le,
    /// `>`
    Gt,
    /// `>=`
    Ge,
    And,
    Or,
    Xor,
    /// `is`: the same object.
    Is,
    /// `isnt`: not the same object.
    Isnt,
}

/// The keyword of a method (the Pony tutorial).
#[derive(Clone, Copy, Debug, PartialEq, Eq)]
pub enum MethodWord {
    /// `fun`: a function, which runs at once.
    Fun,
    /// `be`: a behaviour, which runs later, when its message is taken.
    Be,
    /// `new`: a constructor.
    New,
}
