// Certificates as trees.
use cg_base::{Items, Name};
use cg_core::{Mark, Node};

/// A certificate: for each function with a definition its name and the nodes of its derivation (docs/LANGUAGE.md, "Certificates").
#[derive(Drop)]
pub struct Cert {
    pub funs: Items<CertFun>,
}

/// The nodes of a function's derivation, a node before its parts, and the parts in order.
#[derive(Drop)]
pub struct CertFun {
    pub name: Name,
    pub nodes: Items<CertNode>,
}

/// A node of a derivation: its rule, and the marks of each of its splits.
#[derive(Drop)]
pub struct CertNode {
    pub node: Node,
    pub marks: Items<Items<Mark>>,
}
