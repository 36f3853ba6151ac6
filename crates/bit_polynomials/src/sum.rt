// Sums of products of polynomials over the field of two.

// A sum of up to 32 products, each of degree 62 at most: bit k is the coefficient of the k-th power.
#[derive(Clone, Copy)]
pub struct BitPolynomialSum {
    pub total: u64,
    pub count: u32,
}
