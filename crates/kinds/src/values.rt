ghost use Rattle.std.specs.Prelude.{◌≡◌, Some};
ghost use Rattle.kinds.specs.Numbers.{FromNumber};
ghost use Rattle.kinds.specs.Values.{name_of_value_kind, number_of_value_kind};

use super::UnknownNumber;
use std::fmt;

// What a row computes: a phi, or a variant of `InstructionValue`. An element is shown as JSX for short.
#[derive(Clone, Copy, PartialEq, Eq, Debug)]
pub enum ValueKind {
    Phi = 0,
    LoadLocal = 1,
    LoadContext = 2,
    DeclareLocal = 3,
    DeclareContext = 4,
    StoreLocal = 5,
    StoreContext = 6,
    Destructure = 7,
    Primitive = 8,
    JsxText = 9,
    BinaryExpression = 10,
    NewExpression = 11,
    CallExpression = 12,
    MethodCall = 13,
    UnaryExpression = 14,
    TypeCastExpression = 15,
    JsxExpression = 16,
    ObjectExpression = 17,
    ObjectMethod = 18,
    ArrayExpression = 19,
    JsxFragment = 20,
    RegExpLiteral = 21,
    MetaProperty = 22,
    PropertyStore = 23,
    PropertyLoad = 24,
    PropertyDelete = 25,
    ComputedStore = 26,
    ComputedLoad = 27,
    ComputedDelete = 28,
    LoadGlobal = 29,
    StoreGlobal = 30,
    FunctionExpression = 31,
    TaggedTemplateExpression = 32,
    TemplateLiteral = 33,
    Await = 34,
    GetIterator = 35,
    IteratorNext = 36,
    NextPropertyOf = 37,
    PrefixUpdate = 38,
    PostfixUpdate = 39,
    Debugger = 40,
    StartMemoize = 41,
    FinishMemoize = 42,
}

impl TryFrom<u8> for ValueKind {
    type Error = UnknownNumber;

    ghost try_from_gives = { FromNumber number_of_value_kind 0 42 };

    fn try_from(number: u8) -> Result<ValueKind, UnknownNumber> {
        match number {
            0 => Ok(ValueKind::Phi),
            1 => Ok(ValueKind::LoadLocal),
            2 => Ok(ValueKind::LoadContext),
            3 => Ok(ValueKind::DeclareLocal),
            4 => Ok(ValueKind::DeclareContext),
            5 => Ok(ValueKind::StoreLocal),
            6 => Ok(ValueKind::StoreContext),
            7 => Ok(ValueKind::Destructure),
            8 => Ok(ValueKind::Primitive),
            9 => Ok(ValueKind::JsxText),
            10 => Ok(ValueKind::BinaryExpression),
            11 => Ok(ValueKind::NewExpression),
            12 => Ok(ValueKind::CallExpression),
            13 => Ok(ValueKind::MethodCall),
            14 => Ok(ValueKind::UnaryExpression),
            15 => Ok(ValueKind::TypeCastExpression),
            16 => Ok(ValueKind::JsxExpression),
            17 => Ok(ValueKind::ObjectExpression),
            18 => Ok(ValueKind::ObjectMethod),
            19 => Ok(ValueKind::ArrayExpression),
            20 => Ok(ValueKind::JsxFragment),
            21 => Ok(ValueKind::RegExpLiteral),
            22 => Ok(ValueKind::MetaProperty),
            23 => Ok(ValueKind::PropertyStore),
            24 => Ok(ValueKind::PropertyLoad),
            25 => Ok(ValueKind::PropertyDelete),
            26 => Ok(ValueKind::ComputedStore),
            27 => Ok(ValueKind::ComputedLoad),
            28 => Ok(ValueKind::ComputedDelete),
            29 => Ok(ValueKind::LoadGlobal),
            30 => Ok(ValueKind::StoreGlobal),
            31 => Ok(ValueKind::FunctionExpression),
            32 => Ok(ValueKind::TaggedTemplateExpression),
            33 => Ok(ValueKind::TemplateLiteral),
            34 => Ok(ValueKind::Await),
            35 => Ok(ValueKind::GetIterator),
            36 => Ok(ValueKind::IteratorNext),
            37 => Ok(ValueKind::NextPropertyOf),
            38 => Ok(ValueKind::PrefixUpdate),
            39 => Ok(ValueKind::PostfixUpdate),
            40 => Ok(ValueKind::Debugger),
            41 => Ok(ValueKind::StartMemoize),
            42 => Ok(ValueKind::FinishMemoize),
            _ => Err(UnknownNumber(number)),
        }
    }
}

impl From<ValueKind> for u8 {
    ghost from_gives = { λ kind n. n ≡ number_of_value_kind kind };

    fn from(kind: ValueKind) -> u8 {
        kind as u8
    }
}

impl fmt::Display for ValueKind {
    ghost output = { λ kind. Some (name_of_value_kind kind) };

    fn fmt<W: fmt::Write>(&self, f: &mut fmt::Formatter<W>) -> fmt::Result {
        f.write_str(match self {
            ValueKind::Phi => "Phi",
            ValueKind::LoadLocal => "LoadLocal",
            ValueKind::LoadContext => "LoadContext",
            ValueKind::DeclareLocal => "DeclareLocal",
            ValueKind::DeclareContext => "DeclareContext",
            ValueKind::StoreLocal => "StoreLocal",
            ValueKind::StoreContext => "StoreContext",
            ValueKind::Destructure => "Destructure",
            ValueKind::Primitive => "Primitive",
            ValueKind::JsxText => "JSXText",
            ValueKind::BinaryExpression => "BinaryExpression",
            ValueKind::NewExpression => "NewExpression",
            ValueKind::CallExpression => "CallExpression",
            ValueKind::MethodCall => "MethodCall",
            ValueKind::UnaryExpression => "UnaryExpression",
            ValueKind::TypeCastExpression => "TypeCastExpression",
            ValueKind::JsxExpression => "JSX",
            ValueKind::ObjectExpression => "ObjectExpression",
            ValueKind::ObjectMethod => "ObjectMethod",
            ValueKind::ArrayExpression => "ArrayExpression",
            ValueKind::JsxFragment => "JsxFragment",
            ValueKind::RegExpLiteral => "RegExpLiteral",
            ValueKind::MetaProperty => "MetaProperty",
            ValueKind::PropertyStore => "PropertyStore",
            ValueKind::PropertyLoad => "PropertyLoad",
            ValueKind::PropertyDelete => "PropertyDelete",
            ValueKind::ComputedStore => "ComputedStore",
            ValueKind::ComputedLoad => "ComputedLoad",
            ValueKind::ComputedDelete => "ComputedDelete",
            ValueKind::LoadGlobal => "LoadGlobal",
            ValueKind::StoreGlobal => "StoreGlobal",
            ValueKind::FunctionExpression => "FunctionExpression",
            ValueKind::TaggedTemplateExpression => "TaggedTemplateExpression",
            ValueKind::TemplateLiteral => "TemplateLiteral",
            ValueKind::Await => "Await",
            ValueKind::GetIterator => "GetIterator",
            ValueKind::IteratorNext => "IteratorNext",
            ValueKind::NextPropertyOf => "NextPropertyOf",
            ValueKind::PrefixUpdate => "PrefixUpdate",
            ValueKind::PostfixUpdate => "PostfixUpdate",
            ValueKind::Debugger => "Debugger",
            ValueKind::StartMemoize => "StartMemoize",
            ValueKind::FinishMemoize => "FinishMemoize",
        })
    }
}
